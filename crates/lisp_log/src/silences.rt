//! Map-Servers that don't acknowledge.

ghost use Rattle.std.specs.Prelude.{◌≡◌, ◌≤◌, ◌↔◌, IsTrue, None, IfOk, IfSome, OnErr};
ghost use Rattle.lisp_records.specs.Moment.{max_moment};
ghost use Rattle.lisp_log.specs.Silences.{never_heard, heard, Acknowledges, IsSilent, TellsSilence, NoneSilent};

use lisp_memory::{FallibleVec, Memory};
use std::alloc::{AllocError, Allocator, Global};
use std::marker::Model;

/// How long a Map-Server may take to acknowledge, and Map-Registers be refused as replays, before that
/// is told, in ms.
pub(crate) const PATIENCE_MS: u64 = 180_000;

/// How long after it was told it is told again, in ms.
pub(crate) const AGAIN_MS: u64 = 600_000;

/// How long a Map-Server that a router registers with hasn't acknowledged.
#[derive(Clone, Copy)]
pub struct Silence {
    /// The Map-Server's number.
    pub server: usize,
    /// When it acknowledged last, in ms; before, when its time began.
    pub acknowledged: u64,
    /// From when on its silence may be told again, in ms.
    pub next_line: u64,
}

/// The Map-Servers of a router, and how long each hasn't acknowledged a Map-Register. One that hasn't for three minutes
/// is told, and at most once in ten.
#[derive(Drop)]
pub struct Silences<A: Allocator = Global> {
    servers: Vec<Silence, A>,
}

impl<A: Allocator> Model for Silences<A> {
    ghost use Rattle.std.specs.Prelude.{List};
    ghost use Rattle.lisp_log.specs.declared.silences.Silence.{Silence};

    ghost Value = { List Silence };

    ghost view = { λ s. s.servers.items };
}

impl<A: Memory + Copy> Silences<A> {
    /// Those of the Map-Servers with these numbers, of which none has acknowledged; their time begins at a moment, in ms.
    pub fn new(alloc: A, servers: &[usize], now: u64) -> Result<Silences<A>, AllocError>
        ensures all { IfOk result (λ s. s ≡ never_heard now servers.now) }
        ensures memory { OnErr result A.may_refuse }
    {
        let mut silences = Vec::new(alloc);
        for server in servers {
            silences.try_push(Silence {
                server: *server,
                acknowledged: now,
                next_line: now,
            })?;
        }
        Ok(Silences { servers: silences })
    }

    /// The Map-Server with a number acknowledges, at a moment in ms.
    pub fn acknowledges(&mut self, server: usize, now: u64)
        ensures { Acknowledges self.old self.new server now }
    {
        hear_each(&mut self.servers, server, now);
    }

    /// A Map-Server whose silence is told at a moment, in ms of at most 2^62: its number, and how long it hasn't
    /// acknowledged, in ms. It isn't told again before ten minutes are over. `None` where none is.
    pub fn tells(&mut self, now: u64) -> Option<(usize, u64)>
        requires { now ≤ max_moment }
        ensures told { IfSome result (TellsSilence self.old self.new now) }
        ensures none { result ≡ None → NoneSilent self.old now × (self.new ≡ self.old) }
    {
        let place = self
            .servers
            .iter()
            .position(|silence| silence.is_silent(now))?;
        let silence = self.servers[place];
        self.servers[place].next_line = now + AGAIN_MS;
        Some((silence.server, now.saturating_sub(silence.acknowledged)))
    }
}

// One of these Map-Servers acknowledges at a moment.
fn hear_each(servers: &mut [Silence], server: usize, now: u64)
    ensures { Acknowledges servers.old servers.new server now }
{
    for silence in servers.iter_mut() {
        silence.hear(server, now);
    }
}

impl Silence {
    // The Map-Server with a number acknowledges at a moment.
    fn hear(&mut self, server: usize, now: u64)
        ensures { self.new ≡ heard server now self.old }
    {
        if self.server == server {
            self.acknowledged = now;
        }
    }

    // Whether it is to be told at a moment.
    fn is_silent(&self, now: u64) -> bool
        ensures { IsTrue result ↔ IsSilent now self.now }
    {
        now.saturating_sub(self.acknowledged) >= PATIENCE_MS && self.next_line <= now
    }
}
