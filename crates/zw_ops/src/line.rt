//! Places in the line of a receiver.
ghost use Rattle.std.specs.Prelude.{◌≡◌, ◌<◌, ◌≤◌, ◌&&◌, false, Some, drop, filter, length, slice_get, IfSome};
ghost use Rattle.std.specs.Option.{option_map};
ghost use Rattle.zw_methods.specs.Line.{place_seen};
ghost use Rattle.zw_methods.specs.Methods.{found_seen, method_at, tables_in};
ghost use Rattle.zw_ops.specs.Line.{first_asked, is_of_classes, is_table, line_behind};

use zw_heap::{CoreClass, Heap};
use zw_methods::{Found, Methods, ModuleLine};
use zw_names::Name;

/// Whether two places are one table.
pub(crate) fn is_table(table: ModuleLine, place: ModuleLine) -> bool
    ensures { result ≡ is_table (place_seen table) (place_seen place) }
{
    table.module.0 == place.module.0 && table.singleton == place.singleton
}

/// How many places of a line are one table.
pub(crate) fn count_tables(line: &[ModuleLine], table: ModuleLine) -> usize
    ensures count { result ≡ length (filter (λ p. is_table (place_seen table) (place_seen p)) line.now) }
    ensures few { result ≤ length line.now }
{
    let mut count = 0;
    for place in line {
        if is_table(table, *place) {
            count += 1;
        }
    }
    count
}

/// Where the line goes on behind a table that has so many equal ones before it: its end, where there is none.
pub(crate) fn place_behind(line: &[ModuleLine], table: ModuleLine, earlier: usize) -> usize
    ensures behind { drop result line.now ≡ line_behind table earlier line.now }
    ensures within { result ≤ length line.now }
{
    let mut left = earlier;
    for (at, place) in line.iter().enumerate() {
        if is_table(table, *place) {
            if left == 0 {
                return at + 1;
            }
            left -= 1;
        }
    }
    line.len()
}

/// Whether a place is the table of the instances of Class.
fn is_of_classes(heap: &Heap, place: ModuleLine) -> bool
    ensures { result ≡ is_of_classes (place_seen place) }
{
    !place.singleton && place.module.0 == heap.core(CoreClass::Class).0
}

/// The first method of a name from a place of a line on. The table of the instances of Class may be passed over.
pub(crate) fn find_asked(
    heap: &Heap,
    methods: &Methods,
    line: &[ModuleLine],
    start: usize,
    passes: bool,
    name: Name,
) -> Option<Found>
    ensures first { option_map found_seen result
        ≡ first_asked (tables_in methods.now) passes name.0 start (drop start line.now) }
    ensures within { IfSome result (λ found. found.at < length line.now) }
    ensures there { IfSome result (λ found.
        option_map (λ p. method_at (tables_in methods.now) p name.0) (slice_get line.now found.at)
        ≡ Some (Some found.method)) }
    ensures asked { IfSome result (λ found.
        option_map (λ p. passes && is_of_classes (place_seen p)) (slice_get line.now found.at) ≡ Some false) }
{
    for at in start..line.len() {
        let place = line[at];
        if passes && is_of_classes(heap, place) {
            continue;
        }
        if let Some(method) = methods.method(place, name) {
            return Some(Found { at, method });
        }
    }
    None
}
