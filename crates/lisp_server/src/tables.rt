//! What a Map-Server keeps in memory, all of it since its start.

ghost use Rattle.std.specs.Prelude.{◌≡◌, length, OnOk, OnErr};
ghost use Rattle.lisp_lookup.specs.Table.{Sets};
ghost use Rattle.lisp_server.specs.LastNonces.{SetsNonce};
ghost use Rattle.lisp_server.specs.Notices.{SetsNotice};
ghost use Rattle.lisp_server.specs.Server.{SameTables, HasRoom, HasNoticeRoom, SetsPairContact, SetsNoticeNonce};

use crate::contacts::{Contact, Contacts};
use crate::last_nonces::LastNonces;
use crate::standing_notice::StandingNotice;
use crate::standing_notices::StandingNotices;
use lisp_admission::NOTICES;
use lisp_lookup::Table;
use lisp_memory::Memory;
use lisp_nonces::Pair;
use lisp_records::{Addr, RouterId, Row};
use std::alloc::{AllocError, Allocator};

/// The rows that are held, the last nonces, where each router was heard last, and the unsolicited
/// Map-Notifies (notices) that stand.
#[derive(Drop)]
pub(crate) struct Tables<A: Allocator> {
    pub(crate) rows: Table<A>,
    pub(crate) nonces: LastNonces<A>,
    pub(crate) contacts: Contacts<A>,
    pub(crate) notices: StandingNotices<A>,
}

impl<A: Allocator + Copy> Tables<A> {
    /// Keeps what an accepted Map-Register leaves here. Takes no memory.
    pub(crate) fn accept(&mut self, rows: Vec<Row<A>, A>, pair: Pair, nonce: u64, from: Addr)
        requires { HasRoom self.old (length rows.items) pair }
        ensures rows { Sets self.old.rows.rows self.new.rows.rows rows.items }
        ensures nonces { SetsNonce self.old.nonces.nonces self.new.nonces.nonces pair nonce }
        ensures contacts { SetsPairContact self.old self.new pair from }
        ensures notices { self.new.notices.notices ≡ self.old.notices.notices }
    {
        self.rows.put_all(rows);
        self.nonces.set(pair, nonce);
        self.contacts.set(Contact {
            router: pair.router,
            key: pair.key,
            from,
        });
    }

    /// Keeps a notice and its nonce. Takes no memory.
    pub(crate) fn keep_notice(&mut self, notice: StandingNotice<A>)
        requires { HasNoticeRoom self.old notice.router }
        ensures rows { self.new.rows.rows ≡ self.old.rows.rows }
        ensures nonces { SetsNoticeNonce self.old self.new notice.nonce }
        ensures contacts { self.new.contacts.contacts ≡ self.old.contacts.contacts }
        ensures notices { SetsNotice self.old.notices.notices self.new.notices.notices notice }
    {
        self.nonces.set(NOTICES, notice.nonce);
        self.notices.keep(notice);
    }
}

impl<A: Memory + Copy> Tables<A> {
    /// Makes room for what a Map-Register that sets these rows under a pair leaves here.
    pub(crate) fn prepare(&mut self, rows: &[Row<A>], pair: &Pair) -> Result<(), AllocError>
        ensures same { SameTables self.old self.new }
        ensures room { OnOk result (HasRoom self.new (length rows.now) pair.now) }
        ensures memory { OnErr result A.may_refuse }
    {
        self.rows.prepare(rows)?;
        self.nonces.prepare(pair)?;
        self.contacts.prepare(&pair.router)
    }

    /// Makes room for a notice to a router and its nonce.
    pub(crate) fn prepare_notice(&mut self, router: &RouterId) -> Result<(), AllocError>
        ensures same { SameTables self.old self.new }
        ensures room { OnOk result (HasNoticeRoom self.new router.now) }
        ensures memory { OnErr result A.may_refuse }
    {
        self.nonces.prepare(&NOTICES)?;
        self.notices.prepare(router)
    }
}
