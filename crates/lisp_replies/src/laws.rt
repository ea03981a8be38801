//! What holds of replies themselves: each function's contract is a law, and its body is empty.

ghost use Rattle.std.specs.Prelude.{List};
ghost use Rattle.lisp_records.specs.Record.{MapRecordValue};
ghost use Rattle.lisp_records.specs.Row.{RowValue};
ghost use Rattle.lisp_policy.specs.Site.{SiteValue};
ghost use Rattle.lisp_replies.specs.Kept.{HaveOneInside, RepliesMayBeKept, ReplyAlike};
ghost use Rattle.lisp_replies.specs.Narrowing.{WiderFitsNot};
ghost use Rattle.lisp_replies.specs.OwnKept.{OwnRepliesMayBeKept};

use std::alloc::Allocator;

/// Rows, one for each router and prefix, have one list of the longer prefixes inside a prefix (RFC 9301 section 5.5).
pub fn one_inside()
    ensures { (rows : List RowValue) → HaveOneInside rows }
{}

/// Where one message can't carry the records for a prefix, it can't carry those for a wider one.
pub fn wider_fits_not()
    ensures { (rows : List RowValue) → WiderFitsNot rows }
{}

/// What an ITR that keeps a reply says of an address of the first record's prefix is what the Map-Server says of that address at that
/// moment: one record is the longest that has the address, and it is that of the row that answers for the address. Of a negative reply
/// no row answers for any address of its prefix, and it is kept as long as that for the address (RFC 9301 sections 5.5 and 8.4).
pub fn replies_may_be_kept<A: Allocator>()
    ensures { (rows : List RowValue) (sites : List SiteValue) → RepliesMayBeKept A rows sites }
{}

/// Rows that died and weren't taken out yet change no reply, nor does the order of rows.
pub fn replies_are_alike<A: Allocator>()
    ensures { (one other : List RowValue) (sites : List SiteValue)
        → ReplyAlike A one other sites }
{}

/// What an ITR that keeps a router's reply says of an address of the first record's prefix is what the router's database says of it: one record
/// is the longest that has the address, and it is the longest that the database has for it, but authoritative and for the TTL of all. Of
/// a negative reply the database has no record for any address of its prefix (RFC 9301 section 5.5).
pub fn own_replies_may_be_kept<A: Allocator>()
    ensures { (database : List MapRecordValue) → OwnRepliesMayBeKept A database }
{}
