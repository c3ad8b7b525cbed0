//! The order of the places at which parts stand.
ghost use Rattle.std.specs.Prelude.{◌≡◌, ◌≤◌, length};
ghost use Rattle.cx_core_events.specs.Paces.{is_before, hindmost_of, same_place, twin_from};

use crate::standing::Standing;
use cx_core_place::Place;

/// Whether both are parts, and the first one stands before the second.
pub(crate) fn is_before(parts: &[Standing], j: u32, k: u32) -> bool
    ensures { result ≡ is_before parts.now j k }
{
    match parts.get(j as usize) {
        None => false,
        Some(first) => match parts.get(k as usize) {
            None => false,
            Some(second) => first.place.is_before(&second.place),
        },
    }
}

/// Of so many parts the first one before which no other stands.
pub(crate) fn hindmost(parts: &[Standing], count: u32) -> u32
    ensures { result ≡ hindmost_of parts.now count }
{
    let mut hind = 0;
    'parts: for k in 0..count {
        if is_before(parts, k, hind) {
            hind = k;
        }
    }
    hind
}

/// Whether it is the same place.
fn is_same(first: &Place, second: &Place) -> bool
    ensures { result ≡ same_place first.now second.now }
{
    first.is_same(second)
}

/// The first part that stands at a place, but for part k.
pub(crate) fn twin(parts: &[Standing], k: u32, here: &Place) -> Option<u32>
    requires { length parts.now ≤ 512 }
    ensures { result ≡ twin_from 0 k here.now parts.now }
{
    'parts: for (n, part) in parts.iter().enumerate() {
        if n != k as usize && is_same(&part.place, here) {
            return Some(n as u32);
        }
    }
    None
}
