//! The replies that the log alone gives.

ghost use Rattle.std.specs.Prelude.{◌≡◌, unwrap_or};
ghost use Rattle.git_object.specs.Ids.{zeros};
ghost use Rattle.pushes.specs.Steps.{by_number, by_parent, early, same_tip, tip_of};

use crate::{Reply, Row};
use git_object::ObjectId;
use placed_items::Placed;
use rsl_chain::Entry;

/// The last id of the log.
pub fn tip_of(rows: &Placed<Row>) -> Option<ObjectId>
    ensures { result ≡ tip_of rows.now }
{
    match rows.as_slice().last() {
        Some(row) => Some(row.id),
        None => None,
    }
}

/// Whether both are one id, or neither is there.
pub fn same_tip(left: &Option<ObjectId>, right: &Option<ObjectId>) -> bool
    ensures { result ≡ same_tip left.now right.now }
{
    match left {
        Some(left) => match right {
            Some(right) => left.as_bytes() == right.as_bytes(),
            None => false,
        },
        None => match right {
            Some(_) => false,
            None => true,
        },
    }
}

/// The id, or zeros.
pub fn id_or_zeros(id: &Option<ObjectId>) -> ObjectId
    ensures { result ≡ unwrap_or id.now zeros }
{
    match id {
        Some(id) => *id,
        None => ObjectId::zeros(),
    }
}

fn by_number(rows: &Placed<Row>, number: u64) -> Option<Reply>
    ensures { result ≡ by_number rows.now number }
{
    let expected = rows.len() as u64 + 1;
    if number == expected {
        return None;
    }
    Some(Reply::Misnumbered { number, expected })
}

fn by_parent(rows: &Placed<Row>, entry: &Entry) -> Option<Reply>
    ensures { result ≡ by_parent rows.now entry.now }
{
    let tip = tip_of(rows);
    if same_tip(&entry.parent, &tip) {
        return by_number(rows, entry.number);
    }
    Some(Reply::Stale {
        number: rows.len() as u64,
        id: id_or_zeros(&tip),
    })
}

/// The reply to an entry that the log alone gives: it is there already, or it is not the next one. It takes no memory.
pub fn early(rows: &Placed<Row>, entry: &Entry) -> Option<Reply>
    ensures { result ≡ early rows.now entry.now }
{
    match rows.place(&entry.id) {
        Some(place) => Some(Reply::Already {
            number: place as u64 + 1,
        }),
        None => by_parent(rows, entry),
    }
}
