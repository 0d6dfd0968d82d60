//! The addresses that a door may listen on.
ghost use Rattle.std.specs.Prelude.{IfSome, IsNone};
ghost use Rattle.std.specs.Net.Grammar.{IsSocketText};
ghost use Rattle.cv_net.specs.Addresses.{IsLoopback, NamesNone};

use std::net::SocketAddr;

/// The loopback address that a text spells, as `127.0.0.1:8080` or `[::1]:0`. No name is looked up.
#[tactic(auto, using(crate::proofs::Names::names_another))]
pub(crate) fn loopback(text: &str) -> Option<SocketAddr>
    ensures some { IfSome result (λ address. IsSocketText text.now address × IsLoopback address) }
    ensures none { IsNone result → NamesNone text.now }
{
    let Ok(address) = text.parse::<SocketAddr>() else {
        return None;
    };
    if address.ip().is_loopback() {
        Some(address)
    } else {
        None
    }
}
