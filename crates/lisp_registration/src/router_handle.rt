//! A router that a program in C holds: its start and its end.

ghost use Rattle.std.specs.Prelude.{◌≡◌, None};
ghost use Rattle.lisp_memory.specs.Refusal.{MachineMayRefuse};
ghost use Rattle.lisp_registration.specs.Server.{kept_in};
ghost use Rattle.lisp_registration.specs.Starting.{ChangesRouter, MayRunOut, StartsNode, TellsRouterPair, text_database, text_pair, text_router};

use crate::fault::HandleFault;
use crate::pair::{PlainNonce, PlainPair};
use crate::starting::{settings_of, started_router};
use lisp_embedded::RouterHandle;
use std::alloc::Global;

/// What the nonces of the router of a name in a configuration, TOML in UTF-8, are kept for. 0 is done; else (`NotUtf8` 95, a
/// fault of the configuration 20 to 24, `NoRouter` 106, `OutOfMemory` 105) the pair is as it was.
#[unsafe(no_mangle)]
pub extern "C" fn lisp_registration_router_pair(
    alloc: Global,
    configuration: &[u8],
    name: &[u8],
    pair: &mut PlainPair,
) -> u16
    ensures pair { TellsRouterPair (text_pair configuration.now name.now) pair.old result pair.new }
    ensures memory { result ≡ 105 → MachineMayRefuse }
    ensures reading { result ≡ 24 → MayRunOut configuration.now }
{
    match settings_of(alloc, configuration, name) {
        Ok((settings, _)) => {
            *pair = PlainPair::of(Some(settings.pair()));
            0
        }
        Err(fault) => fault.number(),
    }
}

/// Starts the router of a name in a configuration, TOML in UTF-8, at a time, in ms, with the nonce that the program loaded for
/// its pair: all its Map-Servers are due. What the handle held before is gone. 0 is done; else (`NotUtf8` 95, a fault of the
/// configuration 20 to 24, `NoRouter` 106, `OutOfMemory` 105) the handle is as it was.
#[unsafe(no_mangle)]
pub extern "C" fn lisp_registration_router_start(
    alloc: Global,
    configuration: &[u8],
    name: &[u8],
    kept: &PlainNonce,
    now: u64,
    router: &mut RouterHandle,
) -> u16
    ensures started { StartsNode
        (text_router configuration.now name.now (kept_in kept.now) now) router.old.value result
        router.new.value }
    ensures memory { result ≡ 105 → MachineMayRefuse }
    ensures reading { result ≡ 24 → MayRunOut configuration.now }
{
    match started_router(alloc, configuration, name, kept.kept(), now) {
        Ok(hosted) => {
            *router = RouterHandle::of(hosted);
            0
        }
        Err(fault) => fault.number(),
    }
}

/// Stops the router that the handle holds, if it holds one; it holds none from then on, and all memory is given back.
#[unsafe(no_mangle)]
pub extern "C" fn lisp_registration_router_stop(alloc: Global, router: &mut RouterHandle)
    ensures { router.new.value ≡ None }
{
    *router = RouterHandle::none(alloc);
}

/// Has the router register what a configuration, TOML in UTF-8, has for a name, from a time on, in ms: all its Map-Servers are
/// due. 0 is done; else (`NotUtf8` 95, a fault of the configuration 20 to 24, `NoRouter` 106, `OutOfMemory` 105, then `Null`
/// 100 where the handle holds none) all is as it was.
#[unsafe(no_mangle)]
pub extern "C" fn lisp_registration_router_change(
    alloc: Global,
    configuration: &[u8],
    name: &[u8],
    now: u64,
    router: &mut RouterHandle,
) -> u16
    ensures changed { ChangesRouter
        (text_database configuration.now name.now) now router.old.value result router.new.value }
    ensures memory { result ≡ 105 → MachineMayRefuse }
    ensures reading { result ≡ 24 → MayRunOut configuration.now }
{
    let (_, database) = match settings_of(alloc, configuration, name) {
        Ok(settings) => settings,
        Err(fault) => return fault.number(),
    };
    match router.take(alloc) {
        Some(mut hosted) => {
            hosted.router.change(database, now);
            *router = RouterHandle::of(hosted);
            0
        }
        None => HandleFault::Null.number(),
    }
}
