//! Messages and their tags, as C has them.

ghost use Rattle.std.specs.Prelude.{◌≡◌, ◌<◌, length, ◌↔◌, IsTrue};
ghost use Rattle.lisp_messages.specs.Spelling.{notify_type};
ghost use Rattle.lisp_messages.specs.Written.{kind_number};
ghost use Rattle.lisp_messages.specs.Authentic.{IsAuthentic};
ghost use Rattle.lisp_registration.specs.Plain.{plain_message};
ghost use Rattle.lisp_registration.specs.Meaning.{register_in, notify_in};
ghost use Rattle.lisp_registration.specs.Told.{signed_in_place};

use lisp_hmac::Key;
use lisp_messages::{
    Head, Kind, MapNotify, MapRegister, Message, MessageLayout, ReadFault, authentic, sign,
};
use lisp_records::Records;
use std::alloc::Allocator;

/// A message but its records, in plain numbers (RFC 9301 sections 5.6 and 5.7).
#[repr(C)]
#[derive(Clone, Copy)]
pub struct PlainMessage {
    /// The nonce.
    pub nonce: u64,
    /// The Site-ID of a Map-Register.
    pub site: u64,
    /// The xTR-ID of a Map-Register.
    pub xtr: [u8; 16],
    /// The type: 3 is a Map-Register, 4 a Map-Notify, 5 a Map-Notify-Ack.
    pub kind: u8,
    /// The Key ID.
    pub key_id: u8,
    /// P of a Map-Register, as 1 or 0: the Map-Server is to answer Map-Requests for the router.
    pub proxy: u8,
    /// S of a Map-Register, as 1 or 0: the router is capable of LISP-SEC.
    pub sec: u8,
    /// E of a Map-Register, as 1 or 0: dynamic EID discovery.
    pub eid_notify: u8,
    /// T of a Map-Register, as 1 or 0: registrations time out by the TTL of their records.
    pub use_ttl: u8,
    /// a of a Map-Register, as 1 or 0: the records are to be merged with those of other routers.
    pub merge: u8,
    /// M of a Map-Register, as 1 or 0: a Map-Notify is wanted.
    pub want_notify: u8,
    /// How many records were read. Not written.
    pub record_count: u8,
    /// Where the first record begins; the others follow. Not written.
    pub records_at: usize,
    /// Where the last record ends. Not written.
    pub records_end: usize,
}

impl PlainMessage {
    /// The message of a layout in plain numbers; of a Map-Notify or Map-Notify-Ack, what a Map-Register alone has is 0.
    pub(crate) fn of<A: Allocator>(layout: &MessageLayout<A>) -> PlainMessage
        ensures { result ≡ plain_message layout.now }
    {
        match &layout.fields {
            Message::Register(register) => PlainMessage {
                nonce: register.nonce,
                site: register.site,
                xtr: register.xtr,
                kind: Kind::Register.number(),
                key_id: register.key_id,
                proxy: u8::from(register.proxy),
                sec: u8::from(register.sec),
                eid_notify: u8::from(register.eid_notify),
                use_ttl: u8::from(register.use_ttl),
                merge: u8::from(register.merge),
                want_notify: u8::from(register.want_notify),
                record_count: layout.record_count,
                records_at: layout.records_at,
                records_end: layout.records_end,
            },
            Message::Notify(notify) => PlainMessage {
                nonce: notify.nonce,
                site: 0,
                xtr: [0; 16],
                kind: kind_of(notify.ack).number(),
                key_id: notify.key_id,
                proxy: 0,
                sec: 0,
                eid_notify: 0,
                use_ttl: 0,
                merge: 0,
                want_notify: 0,
                record_count: layout.record_count,
                records_at: layout.records_at,
                records_end: layout.records_end,
            },
        }
    }

    /// The Map-Register of these records; each flag but 0 is set.
    pub(crate) fn register<A: Allocator>(&self, records: Records<A>) -> MapRegister<A>
        requires { length records < 256 }
        ensures { result ≡ register_in self.now records }
    {
        MapRegister {
            proxy: self.proxy != 0,
            sec: self.sec != 0,
            eid_notify: self.eid_notify != 0,
            use_ttl: self.use_ttl != 0,
            merge: self.merge != 0,
            want_notify: self.want_notify != 0,
            nonce: self.nonce,
            key_id: self.key_id,
            records,
            xtr: self.xtr,
            site: self.site,
        }
    }

    /// The Map-Notify of these records, or where `ack` is set the Map-Notify-Ack.
    pub(crate) fn notify<A: Allocator>(&self, ack: bool, records: Records<A>) -> MapNotify<A>
        requires { length records < 256 }
        ensures { result ≡ notify_in ack self.now records }
    {
        MapNotify {
            ack,
            nonce: self.nonce,
            key_id: self.key_id,
            records,
        }
    }
}

// The type of a Map-Notify, or of a Map-Notify-Ack.
fn kind_of(ack: bool) -> Kind
    ensures { kind_number result ≡ notify_type ack }
{
    if ack { Kind::NotifyAck } else { Kind::Notify }
}

/// Whether the Authentication Data of a message is its tag under a secret of any length, over the whole payload (RFC 9301
/// section 5.6); false where there are no 32 bytes. Takes no memory.
#[unsafe(no_mangle)]
pub extern "C" fn lisp_registration_authentic(bytes: &[u8], secret: &[u8]) -> bool
    ensures { IsTrue result ↔ IsAuthentic bytes.now secret.now }
{
    authentic(bytes, secret)
}

/// Puts the tag of a message under a secret of any length into its Authentication Data; takes no memory. 0 is done; `Short`
/// 1 where there are no 32 bytes, which are as they were.
#[unsafe(no_mangle)]
#[tactic(auto, unfolding(lisp_messages::specs::Head::head_at))]
pub extern "C" fn lisp_registration_sign(bytes: &mut [u8], secret: &[u8]) -> u16
    ensures { (result, bytes.new) ≡ signed_in_place secret.now bytes.old }
{
    if Head::read(bytes).is_none() {
        return ReadFault::Short.number();
    }
    sign(bytes, &Key::new(secret));
    0
}
