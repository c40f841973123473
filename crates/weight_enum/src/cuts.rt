//! Which weights may follow others.
ghost use Rattle.std.specs.Prelude.{◌≡◌, ◌↔◌, ◌<◌, ◌≤◌, IsTrue};
ghost use Rattle.weight_enum.specs.declared.weights.TheConstants.{MOST_DEGREE_OF_FIVE};
ghost use Rattle.weight_enum.specs.steps.Listing.{IsFirst, IsMost, most_behind};

/// As much as so many weights behind a beginning take at most.
fn most_behind(degree: u64, further: usize) -> u64
    requires few { further ≤ 5 }
    requires degree { degree ≤ MOST_DEGREE_OF_FIVE }
    ensures { result ≡ most_behind degree further }
{
    match further {
        0 => 0,
        1 => degree / 2,
        2 => degree / 2 + degree / 3,
        3 => degree / 2 + degree / 3 + degree / 4,
        4 => degree / 2 + degree / 3 + degree / 4 + degree / 5,
        _ => degree / 2 + degree / 3 + degree / 4 + degree / 5 + degree / 6,
    }
}

/// The first weight that is tried at the place, of so many, where none below the least may stand and `rest` is left of the degree.
pub(crate) fn first_weight(count: usize, degree: u64, place: usize, least: u64, rest: u64) -> u64
    requires place { place < count }
    requires few { count ≤ 6 }
    requires degree { degree ≤ MOST_DEGREE_OF_FIVE }
    ensures { IsFirst degree count place least rest result }
{
    let low = rest.saturating_sub(most_behind(degree, count - place - 1));
    if low > least { low } else { least }
}

/// Whether the place is the first of all, and the degree is the number of weights.
fn is_least_degree(count: usize, degree: u64, place: usize) -> bool
    ensures { IsTrue result ↔ ((place ≡ 0) × (degree ≡ count)) }
{
    place == 0 && degree == count as u64
}

/// The greatest weight that is tried at the place, of so many, where `rest` is left of the degree.
pub(crate) fn most_weight(count: usize, degree: u64, place: usize, rest: u64) -> u64
    requires place { place < count }
    requires few { count ≤ 6 }
    requires degree { degree ≤ MOST_DEGREE_OF_FIVE }
    ensures affordable { result ≤ rest }
    ensures most { IsMost count degree place rest result }
{
    let further = (count - place) as u64;
    let room = rest / further;
    if is_least_degree(count, degree, place) {
        return room;
    }
    let cut = degree / (further + 1);
    if cut < room { cut } else { room }
}
