//! The widest prefix for which one message can carry a router's records.

ghost use Rattle.std.specs.Prelude.{◌≡◌, ◌≢◌, ◌≤◌, [], None, true, length, IfSome};
ghost use Rattle.lisp_records.specs.Address.{covers, prefix_around};
ghost use Rattle.lisp_replies.specs.Own.{own_inside};
ghost use Rattle.lisp_replies.specs.OwnSteps.{own_fit, IsWidestFit, FitsNowhere};

use lisp_lookup::is_inside;
use lisp_records::{MAX_RECORDS, MAX_SIZE, MapRecord, Prefix};
use std::alloc::Allocator;

/// The widest prefix, from that of the longest record to the one that is asked for, for which one message can carry the records; `None`
/// where there is none.
pub(crate) fn widest_that_fits<A: Allocator>(
    records: &[MapRecord<A>],
    longest: &MapRecord<A>,
    asked: &Prefix,
) -> Option<Prefix>
    requires few { length records.now ≤ 1024 }
    requires over { covers longest.now.eid asked.now ≡ true }
    ensures widest { IfSome result (λ eid.
        IsWidestFit records.now longest.now asked.now eid) }
    ensures nowhere { result ≡ None → FitsNowhere records.now longest.now asked.now }
    ensures some { result ≡ None → own_inside records.now asked.now ≢ [] }
{
    let addr = asked.addr();
    let widest = longest.eid_ref().mask_len();
    // Nearly always all records fit.
    if fit_around(records, longest, asked, widest) {
        return Prefix::new(addr, widest);
    }
    let mut low = widest + 1;
    let mut high = asked.mask_len();
    if !fit_around(records, longest, asked, high) {
        return None;
    }
    while low < high {
        let middle = low + (high - low) / 2;
        if fit_around(records, longest, asked, middle) {
            high = middle;
        } else {
            low = middle + 1;
        }
    }
    Prefix::new(addr, high)
}

// Whether one message can carry the records for the prefix of a length around the one that is asked for.
fn fit_around<A: Allocator>(
    records: &[MapRecord<A>],
    longest: &MapRecord<A>,
    asked: &Prefix,
    mask_len: u8,
) -> bool
    requires few { length records.now ≤ 1024 }
    requires within { mask_len ≤ asked.now.mask_len }
    ensures fit { result ≡ own_fit records.now longest.now (prefix_around asked.now.addr mask_len) }
    ensures some { own_inside records.now (prefix_around asked.now.addr mask_len) ≡ []
        → result ≡ true }
{
    let eid = Prefix::new(asked.addr(), mask_len).unwrap();
    fit(records, longest, &eid)
}

// Whether one message can carry the records for a prefix.
fn fit<A: Allocator>(records: &[MapRecord<A>], longest: &MapRecord<A>, eid: &Prefix) -> bool
    requires few { length records.now ≤ 1024 }
    ensures fit { result ≡ own_fit records.now longest.now eid.now }
    ensures some { own_inside records.now eid.now ≡ [] → result ≡ true }
{
    let mut count = 1;
    let mut size = longest.written_len();
    for record in records {
        if is_inside(eid, record.eid_ref()) {
            count += 1;
            size += record.written_len();
        }
    }
    count <= MAX_RECORDS && size <= MAX_SIZE
}
