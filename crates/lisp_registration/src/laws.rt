//! What holds of the calls together: the contract of each function is a law, and its body is empty.

ghost use Rattle.std.specs.Prelude.{ℕ, List, Option, Some};
ghost use Rattle.lisp_records.specs.Spelling.{IsBytes};
ghost use Rattle.lisp_etr.specs.Sending.{next_datagram};
ghost use Rattle.lisp_embedded.specs.declared.hosted.HostedRouter.{HostedRouter};
ghost use Rattle.lisp_registration.specs.declared.address.PlainAddress.{PlainAddress};
ghost use Rattle.lisp_registration.specs.declared.notices.PlainNotice.{PlainNotice};
ghost use Rattle.lisp_registration.specs.declared.pair.PlainNonce.{PlainNonce};
ghost use Rattle.lisp_registration.specs.declared.server.PlainReceived.{PlainReceived};
ghost use Rattle.lisp_registration.specs.declared.pair.PlainRouter.{PlainRouter};
ghost use Rattle.lisp_registration.specs.declared.router.PlainSeen.{PlainSeen};
ghost use Rattle.lisp_registration.specs.declared.router.PlainSent.{PlainSent};
ghost use Rattle.lisp_registration.specs.Notices.{ExpiresRows, KeepsShort, TellsNotice, TellsResent};
ghost use Rattle.lisp_registration.specs.Router.{AnswersWhole, TellsSeen, TellsSent};
ghost use Rattle.lisp_registration.specs.Server.{RestartsServer, TellsReceived};
ghost use Rattle.lisp_registration.specs.Starting.{ReloadsServer, StartsNode, text_server, text_sites};
ghost use Rattle.lisp_registration.specs.Told.{IsInFront};

/// Where a router makes a Map-Register, so many bytes in front of the buffer are told as it has, and they are the Map-Register.
pub fn registers_are_told_whole()
    ensures { (server part now : ℕ) (old : HostedRouter) (new : Option HostedRouter)
        (buffer buffer_new : List ℕ) (sent sent_new : PlainSent) →
        TellsSent server part now (Some old) buffer sent 0 new buffer_new sent_new →
        IsInFront (next_datagram old.router part) buffer sent_new.length buffer_new }
{}

/// Where a router takes a datagram, so many bytes in front of the buffer are told as the answer has, and they are the answer.
pub fn answers_of_routers_are_told_whole()
    ensures { (from : PlainAddress) (bytes : List ℕ) (old : HostedRouter)
        (new : Option HostedRouter)
        (buffer buffer_new : List ℕ) (seen seen_new : PlainSeen) → IsBytes bytes →
        TellsSeen from bytes (Some old) buffer seen 0 new buffer_new seen_new →
        AnswersWhole old.router from bytes buffer seen_new.reply_length buffer_new }
{}

/// Each notice that stands at the Map-Server of a handle has at most 16,440 bytes: each call that changes what a handle holds
/// keeps that. So one that is made again has room in the buffer, and is told whole.
pub fn notices_stay_short()
    ensures start { (text : List ℕ) → KeepsShort (StartsNode (text_server text)) }
    ensures restart { KeepsShort RestartsServer }
    ensures reload { (text : List ℕ) (goes_on goes_on_new : ℕ) →
        KeepsShort (λ old number new. ReloadsServer (text_sites text) old goes_on
        number new goes_on_new) }
    ensures receive { (kept : PlainNonce) (from : PlainAddress) (bytes : List ℕ) (now : ℕ)
        (buffer buffer_new : List ℕ) (received received_new : PlainReceived) →
        KeepsShort (λ old number new. TellsReceived kept from bytes now old buffer received
        number new buffer_new received_new) }
    ensures notify { (kept : PlainNonce) (router : PlainRouter) (now : ℕ)
        (buffer buffer_new : List ℕ) (notice notice_new : PlainNotice) →
        KeepsShort (λ old number new. TellsNotice kept router now old buffer notice
        number new buffer_new notice_new) }
    ensures resend { (router : PlainRouter) (now : ℕ) (buffer buffer_new : List ℕ)
        (notice notice_new : PlainNotice) →
        KeepsShort (λ old number new. TellsResent router now old buffer notice
        number new buffer_new notice_new) }
    ensures expire { (now : ℕ) → KeepsShort (ExpiresRows now) }
{}
