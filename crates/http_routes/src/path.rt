//! The segments of a path (RFC 3986, 3.3).
ghost use Rattle.std.specs.Prelude.{◌≡◌};
ghost use Rattle.std.specs.List.{position};
ghost use Rattle.http_routes.specs.Paths.{behind_slash, deviation_in, deviation_segment, is_slash, project_in, up_to_slash};

use http_requests::decimal;

/// The numbers of deviations are below 2^32.
const NUMBERS: u64 = 4_294_967_296;

fn first_slash(path: &[u8]) -> Option<usize>
    ensures { result ≡ position is_slash path.now }
{
    path.iter().position(|byte| *byte == b'/')
}

/// The bytes behind the first slash, none where there is no slash.
#[tactic(auto, using(crate::proofs::Segments::place_below, crate::proofs::Segments::behind_place, crate::proofs::Segments::behind_none))]
fn behind_first(path: &[u8]) -> &[u8]
    ensures { result.now ≡ behind_slash path.now }
{
    match first_slash(path) {
        Some(place) => &path[place + 1..],
        None => &[],
    }
}

/// The bytes before the first slash, all where there is no slash.
#[tactic(auto, using(crate::proofs::Segments::place_below, crate::proofs::Segments::before_place, crate::proofs::Segments::before_none))]
fn before_first(path: &[u8]) -> &[u8]
    ensures { result.now ≡ up_to_slash path.now }
{
    match first_slash(path) {
        Some(place) => &path[..place],
        None => path,
    }
}

/// The second segment, where a project is named.
pub fn project_segment(path: &[u8]) -> &[u8]
    ensures { result.now ≡ project_in path.now }
{
    before_first(behind_first(behind_first(path)))
}

/// The fourth segment, where a deviation is named.
fn fourth_segment(path: &[u8]) -> &[u8]
    ensures { result.now ≡ deviation_segment path.now }
{
    let second = behind_first(behind_first(path));
    before_first(behind_first(behind_first(second)))
}

/// The number of the deviation, where it is a decimal number below 2^32.
#[tactic(auto, using(crate::proofs::Numbers::numbered, crate::proofs::Numbers::too_large, crate::proofs::Numbers::no_number))]
pub fn deviation_number(path: &[u8]) -> Option<u32>
    ensures { result ≡ deviation_in path.now }
{
    match decimal(fourth_segment(path), NUMBERS) {
        Some(number) => {
            if number < NUMBERS {
                Some(number as u32)
            } else {
                None
            }
        }
        None => None,
    }
}
