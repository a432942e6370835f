//! How ids, sides and refusals are printed.
ghost use Rattle.std.specs.Prelude.{◌≡◌, ◌++◌, Some};
ghost use Rattle.dory_base.specs.Texts.{side_text, id_text, ask_text, byte_text, tag_text, refusal_text};

use crate::{AskId, Refusal, Side, Tag, UpdateId};
use std::fmt;

impl fmt::Display for Side {
    ghost output = { λ side. Some (side_text side) };

    fn fmt<W: fmt::Write>(&self, f: &mut fmt::Formatter<W>) -> fmt::Result {
        f.write_str(match self {
            Side::Lead => "lead",
            Side::Follow => "follow",
        })
    }
}

impl fmt::Display for UpdateId {
    ghost output = { λ id. Some (id_text id) };

    fn fmt<W: fmt::Write>(&self, f: &mut fmt::Formatter<W>) -> fmt::Result {
        let member = self.member.0;
        let serial = self.serial;
        write!(f, "{member}.{serial}")
    }
}

impl fmt::Display for AskId {
    ghost output = { λ ask. Some (ask_text ask) };

    fn fmt<W: fmt::Write>(&self, f: &mut fmt::Formatter<W>) -> fmt::Result {
        let member = self.member.0;
        let serial = self.serial;
        let step = self.step;
        write!(f, "{member}.{serial}.{step}")
    }
}

/// A byte, printed as two hexadecimal digits.
#[derive(Clone, Copy)]
struct HexByte(u8);

impl fmt::Display for HexByte {
    ghost output = { λ byte. Some (byte_text byte.0) };

    fn fmt<W: fmt::Write>(&self, f: &mut fmt::Formatter<W>) -> fmt::Result {
        let byte = self.0;
        write!(f, "{byte:02x}")
    }
}

/// Four bytes of a tag.
#[derive(Clone, Copy)]
struct HexWord(u8, u8, u8, u8);

impl fmt::Display for HexWord {
    ghost output = { λ word. Some (byte_text word.0 ++ byte_text word.1 ++ byte_text word.2 ++ byte_text word.3) };

    fn fmt<W: fmt::Write>(&self, f: &mut fmt::Formatter<W>) -> fmt::Result {
        let a = HexByte(self.0);
        let b = HexByte(self.1);
        let c = HexByte(self.2);
        let d = HexByte(self.3);
        write!(f, "{a}{b}{c}{d}")
    }
}

impl fmt::Display for Tag {
    ghost output = { λ tag. Some (tag_text tag) };

    fn fmt<W: fmt::Write>(&self, f: &mut fmt::Formatter<W>) -> fmt::Result {
        let [a, b, c, d, e, g, h, i, j, k, l, m, n, o, p, q] = self.bytes();
        let first = HexWord(a, b, c, d);
        let second = HexWord(e, g, h, i);
        let third = HexWord(j, k, l, m);
        let fourth = HexWord(n, o, p, q);
        write!(f, "{first}{second}{third}{fourth}")
    }
}

impl fmt::Display for Refusal {
    ghost output = { λ code. Some (refusal_text code) };

    fn fmt<W: fmt::Write>(&self, f: &mut fmt::Formatter<W>) -> fmt::Result {
        match self {
            Refusal::NoFolder => write!(f, "nofolder"),
            Refusal::ShapeWrong { depth, probes } => write!(f, "shapewrong {depth} {probes}"),
            Refusal::Unretained { oldest, newest } => write!(f, "unretained {oldest} {newest}"),
            Refusal::BadMember { member } => {
                let member = member.0;
                write!(f, "badmember {member}")
            }
            Refusal::Past { last } => write!(f, "past {last}"),
            Refusal::Clash { id } => write!(f, "clash {id}"),
            Refusal::Unfinished { id } => write!(f, "unfinished {id}"),
            Refusal::Unstaged { id } => write!(f, "unstaged {id}"),
            Refusal::Taken { number, id } => write!(f, "taken {number} {id}"),
            Refusal::Gap { length } => write!(f, "gap {length}"),
            Refusal::WrongRole { role } => write!(f, "wrongrole {role}"),
            Refusal::HistoryFull => write!(f, "historyfull"),
            Refusal::NoEntry { length } => write!(f, "noentry {length}"),
            Refusal::NoMemory => write!(f, "nomemory"),
        }
    }
}
