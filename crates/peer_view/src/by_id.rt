//! Rows and sites by id.
ghost use Rattle.std.specs.Prelude.{◌≡◌, IfOk, IfErr, true};
ghost use Rattle.std.specs.Option.{option_copied};
ghost use Rattle.net_rows.specs.Rows.{machine_with};
ghost use Rattle.net_rows.specs.Shelf.{BelongsAt, IsAscending, StandsAt};
ghost use Rattle.peer_view.specs.Reaches.{id_reaches, site_with};

use crate::near::Spot;
use net_rows::{HasId, Machine, Tables};
use policy_eval::Expanded;
use policy_sites::Site;

/// Whether what has the id stands at that place.
fn is_at<T: HasId>(rows: &[T], place: usize, id: u32) -> bool
    requires ascending { IsAscending T.id rows.now }
    ensures there { result ≡ true → StandsAt T.id rows.now id place }
{
    place < rows.len() && rows[place].id() == id
}

/// Where what has the id stands, or where it would go, by halving.
fn place_among<T: HasId>(rows: &[T], id: u32) -> Result<usize, usize>
    requires ascending { IsAscending T.id rows.now }
    ensures there { IfOk result (StandsAt T.id rows.now id) }
    ensures absent { IfErr result (BelongsAt T.id rows.now id) }
{
    rows.binary_search_by_key(&id, |row| row.id())
}

/// The same, with a look at one place first: who goes over rising ids knows where the next one stands,
/// if nothing lies between.
pub(crate) fn place_near<T: HasId>(rows: &[T], place: usize, id: u32) -> Result<usize, usize>
    requires ascending { IsAscending T.id rows.now }
    ensures there { IfOk result (StandsAt T.id rows.now id) }
    ensures absent { IfErr result (BelongsAt T.id rows.now id) }
{
    if is_at(rows, place, id) {
        Ok(place)
    } else {
        place_among(rows, id)
    }
}

/// The row of the id, which is looked for at the next place first. The place behind it is the next then.
pub(crate) fn machine_near<'a>(tables: &'a Tables, next: &mut usize, id: u32) -> Option<&'a Machine>
    ensures value { option_copied result ≡ machine_with tables.now.rows.machines id }
{
    let rows = tables.machines();
    match place_near(rows, *next, id) {
        Ok(place) => {
            *next = place.saturating_add(1);
            Some(&rows[place])
        }
        Err(_) => None,
    }
}

/// Where the site of the id stands, or would go: no more than a place to look at first.
pub(crate) fn site_place(sites: &[Site], id: u32) -> usize
    requires ascending { IsAscending (λ site. site.id) sites.now }
{
    match place_among(sites, id) {
        Ok(place) | Err(place) => place,
    }
}

/// The site of the id, among sites by ascending id. It is looked for at that place first.
pub(crate) fn site_with(sites: &[Site], place: usize, id: u32) -> Option<&Site>
    requires ascending { IsAscending (λ site. site.id) sites.now }
    ensures value { option_copied result ≡ site_with sites.now id }
{
    match place_near(sites, place, id) {
        Ok(place) => Some(&sites[place]),
        Err(_) => None,
    }
}

/// Whether the machine of one id reaches that of the other, by the flags of the rules.
pub(crate) fn id_reaches(expanded: &Expanded, a: Spot, b: Spot) -> bool
    requires ascending { IsAscending (λ site. site.id) expanded.now.sites }
    ensures value { result
        ≡ id_reaches expanded.now.groups expanded.now.rules expanded.now.sites a.id b.id }
{
    let sites = expanded.sites();
    match (
        place_near(sites, a.place, a.id),
        place_near(sites, b.place, b.id),
    ) {
        (Ok(a), Ok(b)) => expanded.reaches(a, b),
        (Err(_), _) | (_, Err(_)) => false,
    }
}
