//! Where a Map-Server heard each router last.

ghost use Rattle.std.specs.Prelude.{◌≡◌, [], Some, IfOk, IfErr, OnOk, OnErr};
ghost use Rattle.std.specs.List.{position};
ghost use Rattle.lisp_records.specs.Router.{router_cmp};
ghost use Rattle.lisp_policy.specs.Order.{KeysRise, IsGap};
ghost use Rattle.lisp_server.specs.Contacts.{is_contact_of, contact_at, SetsContact, HasContactRoom};

use crate::reserved::insert_reserved;
use lisp_memory::{FallibleVec, Memory};
use lisp_records::{Addr, RouterId};
use std::alloc::{AllocError, Allocator};
use std::marker::Model;

/// Where a router was heard last: the source of its last accepted Map-Register, and the key of it.
#[derive(Clone, Copy)]
pub(crate) struct Contact {
    pub(crate) router: RouterId,
    pub(crate) key: u8,
    pub(crate) from: Addr,
}

/// The contacts of routers, in the order of the routers, and room for more.
#[derive(Drop)]
pub(crate) struct Contacts<A: Allocator> {
    items: Vec<Contact, A>,
}

impl<A: Allocator> Model for Contacts<A> {
    ghost use Rattle.std.specs.Prelude.{◌-◌, vec_len, vec_capacity};
    ghost use Rattle.lisp_records.specs.Router.{router_cmp};
    ghost use Rattle.lisp_policy.specs.Order.{KeysRise};
    ghost use Rattle.lisp_server.specs.Contacts.{ContactsState};

    ghost Value = { ContactsState };

    ghost view = { λ c. record { contacts = c.items.items; spare = vec_capacity c.items - vec_len c.items } };

    ghost invariant = { λ c. KeysRise (λ k. k.router) router_cmp c.items.items };
}

impl<A: Allocator> Contacts<A> {
    /// No contacts. Takes no memory.
    #[tactic(auto, using(crate::proofs::ContactLaws::no_contacts))]
    pub(crate) fn new(alloc: A) -> Contacts<A>
        ensures { result.contacts ≡ [] }
    {
        Contacts {
            items: Vec::new(alloc),
        }
    }

    /// The contact of a router; `None` where it wasn't heard.
    #[tactic(auto, using(crate::proofs::ContactLaws::contact_found))]
    pub(crate) fn get(&self, router: &RouterId) -> Option<Contact>
        ensures { result ≡ contact_at self.now.contacts router.now }
    {
        match place(&self.items, router) {
            Ok(place) => Some(self.items[place]),
            Err(_) => None,
        }
    }

    /// Sets the contact of its router. Takes no memory.
    #[tactic(auto, using(crate::proofs::ContactLaws::rises_set, crate::proofs::ContactLaws::rises_insert))]
    pub(crate) fn set(&mut self, contact: Contact)
        requires { HasContactRoom self.old contact.router }
        ensures { SetsContact self.old.contacts self.new.contacts contact }
    {
        match place(&self.items, &contact.router) {
            Ok(place) => self.items[place] = contact,
            Err(gap) => insert_reserved(&mut self.items, gap, contact),
        }
    }
}

impl<A: Memory> Contacts<A> {
    /// Makes room for the contact of a router, where it has none.
    pub(crate) fn prepare(&mut self, router: &RouterId) -> Result<(), AllocError>
        ensures same { self.new.contacts ≡ self.old.contacts }
        ensures room { OnOk result (HasContactRoom self.new router.now) }
        ensures memory { OnErr result A.may_refuse }
    {
        match place(&self.items, router) {
            Ok(_) => Ok(()),
            Err(_) => self.items.make_room(1),
        }
    }
}

// The place of a router's contact, or where it goes.
fn place(contacts: &[Contact], router: &RouterId) -> Result<usize, usize>
    requires { KeysRise (λ k. k.router) router_cmp contacts.now }
    ensures found { IfOk result (λ i. position (is_contact_of router.now) contacts.now ≡ Some i) }
    ensures gap { IfErr result (λ i. IsGap (λ k. k.router) router_cmp contacts.now router.now i) }
{
    contacts.binary_search_by_key(router, |contact| contact.router)
}
