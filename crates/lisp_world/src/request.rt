//! What a Map-Server of the network sends for a Map-Request.

ghost use Rattle.std.specs.Prelude.{◌≡◌, None, IfOk, IfSome, OnErr};
ghost use Rattle.lisp_refinement.specs.Nodes.{server_at};
ghost use Rattle.lisp_refinement.specs.Replied.{IsPromised, Replies};

use crate::world::World;
use lisp_memory::Memory;
use lisp_nonces::WorldStore;
use lisp_records::Prefix;
use lisp_replies::Reply;
use std::alloc::AllocError;

impl<S: WorldStore, A: Memory + Copy> World<S, A> {
    /// What the Map-Server with a number sends at the network's clock for an EID-Prefix that a Map-Request asks for, where its life is
    /// starting for so many ms; `None` where no Map-Server has the number. By every trace that the network stands for, an ITR that
    /// keeps it reads for each address of the first record's prefix what the Map-Server says of it, and that is what the router's
    /// database had when it sent the last Map-Register for that prefix which this Map-Server accepted since its start, unless expired
    /// (RFC 9301 sections 5.5, 8.3 and 8.4).
    pub fn request(
        &self,
        node: usize,
        asked: &Prefix,
        quiet: u64,
    ) -> Option<Result<Reply<A>, AllocError>>
        ensures replies { IfSome result
            (λ answer. IfOk answer (Replies self.now node asked.now quiet)) }
        ensures promised { IfSome result
            (λ answer. IfOk answer (IsPromised self.now node asked.now quiet)) }
        ensures missing { result ≡ None → server_at self.now node ≡ None }
        ensures memory { IfSome result (λ answer. OnErr answer A.may_refuse) }
    {
        Some(self.servers.get(node)?.reply_to(asked, quiet, self.clock))
    }
}
