//! The exchanges over a link, as the forms in memory keep them.
ghost use Rattle.std.specs.Prelude.{◌≡◌, ◌++◌, ◌∷◌, [], None, map, OnOk, OnErr, IfErr, option_map};
ghost use Rattle.dory_io.specs.Causes.{HasCause, one_more};
ghost use Rattle.dory_link.specs.Told.{told_exchange, talk};

use crate::link::LinkError;
use dory_io::Fails;

/// A request that was asked, and the frame that came, if one did.
#[derive(Debug, Drop)]
pub struct Exchange {
    pub request: Vec<u8>,
    pub reply: Option<Vec<u8>>,
}

/// Keeps one more exchange, or changes nothing.
pub fn keep(
    exchanges: &mut Vec<Exchange>,
    request: Vec<u8>,
    reply: Option<Vec<u8>>,
) -> Result<(), LinkError>
    ensures ok { OnOk result (map told_exchange exchanges.new.items
        ≡ map told_exchange exchanges.old.items ++ talk request.items (option_map (λ frame. frame.items) reply) ∷ []) }
    ensures err { OnErr result (exchanges.new.items ≡ exchanges.old.items) }
    ensures memory { IfErr result (λ e. e ≡ LinkError.NoMemory) }
{
    match exchanges.push(Exchange { request, reply }) {
        Ok(()) => Ok(()),
        Err(_) => Err(LinkError::NoMemory),
    }
}

/// Keeps the exchange of an ask that fails, and counts its fault, or changes nothing.
pub fn fail(exchanges: &mut Vec<Exchange>, fails: &mut Fails, request: Vec<u8>) -> LinkError
    ensures failed { result ≡ LinkError.Failed → (map told_exchange exchanges.new.items
        ≡ map told_exchange exchanges.old.items ++ talk request.items None ∷ []) × (fails.new ≡ record fails.old { faults = one_more fails.old.faults }) }
    ensures cause { HasCause fails.old.faults fails.new.faults (result ≡ LinkError.Failed) }
    ensures memory { result ≡ LinkError.NoMemory → (exchanges.new.items ≡ exchanges.old.items) × (fails.new ≡ fails.old) }
{
    match keep(exchanges, request, None) {
        Ok(()) => {
            fails.count();
            LinkError::Failed
        }
        Err(e) => e,
    }
}
