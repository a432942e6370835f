//! Reading a key from bytes of untrusted origin.
ghost use Rattle.std.specs.Prelude.{◌≡◌, ◌≢◌, ◌≤◌, ◌<◌, ◌+◌, ◌*◌, ◌-◌, ◌==◌, IfErr, IfOk, Ok, Err, length, slice_index, take};
ghost use Rattle.dory_fields.specs.declared.fault.FieldFault.TheVariants.{NoMemory};
ghost use Rattle.dory_fields.specs.Reading.{Reads, many_at};
ghost use Rattle.dory_dpf.specs.PointKey.{PointKey, IsKey, form_of, levels_of, last_len};
ghost use Rattle.dory_dpf.specs.KeyBytes.{bytes_of_key, correction_at, key_at, key_fault, key_of, last_at};

use crate::key::Key;
use crate::key_fault::KeyFault;
use crate::tree::Correction;
use dory_fields::{FieldFault, Reader};

impl Key {
    ghost use Rattle.dory_dpf.specs.PointKey.{PointKey, IsKey, form_of};
    ghost use Rattle.dory_dpf.specs.KeyBytes.{bytes_of_key, key_at, key_of};
    ghost use Rattle.dory_fields.specs.declared.fault.FieldFault.TheVariants.{NoMemory};
    ghost use Rattle.dory_fields.specs.Reading.{Reads};

    /// The key of a form and a depth that these bytes are.
    pub fn decode(form: u8, depth: u8, bytes: &[u8]) -> Result<Key, KeyFault>
        requires form { (1 ≤ form) × (form ≤ 2) }
        requires depth { (8 ≤ depth) × (depth ≤ 11) }
        // What is read, and which fault is the first.
        ensures exact { result ≡ key_of form depth bytes.now }
        // What is read is spelled so.
        ensures spelled { IfOk result (λ key. (form_of key ≡ form) × (key.depth ≡ depth) × (bytes.now ≡ bytes_of_key key)) }
        // What is spelled so is read.
        ensures only { (key : PointKey) → IsKey key → form_of key ≡ form → key.depth ≡ depth → bytes.now ≡ bytes_of_key key → result ≡ Ok key }
    {
        whole_key(form, depth, bytes)
    }

    /// Takes a key of this form and depth.
    #[tactic(auto, unfolding(crate::specs::KeyBytes::key_at))]
    pub fn read(reader: &mut Reader<'_>, form: u8, depth: u8) -> Result<Key, FieldFault>
        requires form { (1 ≤ form) × (form ≤ 2) }
        requires depth { (8 ≤ depth) × (depth ≤ 11) }
        ensures value { Reads (λ x. x) result (key_at form depth) reader.old reader.new }
        ensures no_memory { IfErr result (λ e. e ≢ NoMemory) }
    {
        let _ = reader.u8_in(depth, depth)?;
        let party = reader.u8_in(0, 1)?;
        let seed = reader.array::<16>()?;
        let corrections = read_corrections(reader, levels_of(form, depth))?;
        let last = read_last(reader, form)?;
        Ok(Key::of_parts(depth, party, &seed, &corrections, last))
    }
}

/// The length first, then the fields. It stands apart from `decode`, whose further clauses are proved of this exact one.
#[tactic(auto, unfolding(crate::specs::KeyBytes::key_of))]
fn whole_key(form: u8, depth: u8, bytes: &[u8]) -> Result<Key, KeyFault>
    requires form { (1 ≤ form) × (form ≤ 2) }
    requires depth { (8 ≤ depth) × (depth ≤ 11) }
    ensures { result ≡ key_of form depth bytes.now }
{
    let want = 18 + 17 * levels_of(form, depth) + last_len(form);
    if bytes.len() != want {
        return Err(KeyFault::KeyLength {
            got: bytes.len(),
            want,
        });
    }
    let mut reader = Reader::new(bytes);
    match Key::read(&mut reader, form, depth) {
        Ok(key) => Ok(key),
        Err(fault) => Err(key_fault(want, bytes, fault)),
    }
}

/// How many corrections a key of a form and a depth has.
fn levels_of(form: u8, depth: u8) -> usize
    requires { (8 ≤ depth) × (depth ≤ 11) }
    ensures value { result ≡ levels_of form depth }
    ensures few { result ≤ 11 }
{
    if form == 1 {
        depth as usize
    } else {
        depth as usize - 7
    }
}

/// How many bytes the last word has.
fn last_len(form: u8) -> usize
    ensures { result ≡ last_len form }
{
    if form == 1 { 0 } else { 16 }
}

/// What a field's fault is where so many bytes are wanted.
fn key_fault(want: usize, bytes: &[u8], fault: FieldFault) -> KeyFault
    requires { 1 ≤ length bytes.now }
    ensures { result ≡ key_fault want bytes.now fault }
{
    match fault {
        FieldFault::OutOfRange { at } => {
            if at == 0 {
                KeyFault::KeyDepth { got: bytes[0] }
            } else {
                KeyFault::KeyPadding { at }
            }
        }
        FieldFault::CutShort { .. } | FieldFault::NoMemory => KeyFault::KeyLength {
            got: bytes.len(),
            want,
        },
    }
}

/// The corrections of so many levels, and zeros after them.
fn read_corrections(reader: &mut Reader<'_>, levels: usize) -> Result<[Correction; 11], FieldFault>
    requires { levels ≤ 11 }
    ensures value { Reads (λ x. take levels x) result (many_at correction_at levels) reader.old reader.new }
    ensures no_memory { IfErr result (λ e. e ≢ NoMemory) }
{
    let none = Correction {
        seed: [0; 16],
        left_bit: false,
        right_bit: false,
    };
    let mut corrections = [none; 11];
    for level in 0..levels {
        let correction = read_correction(reader)?;
        corrections[level] = correction;
    }
    Ok(corrections)
}

#[tactic(auto, unfolding(crate::specs::KeyBytes::correction_at))]
fn read_correction(reader: &mut Reader<'_>) -> Result<Correction, FieldFault>
    ensures value { Reads (λ x. x) result correction_at reader.old reader.new }
    ensures no_memory { IfErr result (λ e. e ≢ NoMemory) }
{
    let seed = reader.array::<16>()?;
    let control = reader.u8_in(0, 3)?;
    Ok(Correction {
        seed,
        left_bit: control % 2 == 1,
        right_bit: control >= 2,
    })
}

/// The last word, which a key of form 2 has.
#[tactic(auto, unfolding(crate::specs::KeyBytes::last_at))]
fn read_last(reader: &mut Reader<'_>, form: u8) -> Result<Option<[u8; 16]>, FieldFault>
    ensures value { Reads (λ x. x) result (last_at form) reader.old reader.new }
    ensures no_memory { IfErr result (λ e. e ≢ NoMemory) }
{
    if form == 1 {
        return Ok(None);
    }
    let word = reader.array::<16>()?;
    Ok(Some(word))
}
