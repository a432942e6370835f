//! The keys of a world, all made of its one seed.
ghost use Rattle.std.specs.Prelude.{◌≡◌, ◌<◌, ◌^◌};
ghost use Rattle.dory_run.specs.Start.{master_of, seed_of};

use dory_base::MemberId;
use dory_run::Setup;

/// The master key: 24 zero bytes, and the seed.
pub fn master_of(setup: &Setup) -> [u8; 32]
    ensures { result ≡ master_of setup.now }
{
    let mut master = [0; 32];
    master[24..].copy_from_slice(&setup.seed.to_be_bytes());
    master
}

/// A member's seed: its number, 20 zero bytes, and the seed.
pub fn seed_of(setup: &Setup, member: MemberId) -> [u8; 32]
    ensures { result ≡ seed_of setup.now member }
{
    let mut seed = [0; 32];
    seed[..4].copy_from_slice(&member.0.to_be_bytes());
    seed[24..].copy_from_slice(&setup.seed.to_be_bytes());
    seed
}
