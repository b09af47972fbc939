// The calls on maps for a program in C or Rust, with numbers and byte slices: `tests/` links and compares them.
#![tactic(auto)]

ghost use Rattle.std.specs.Prelude.{◌≡◌};
ghost use Rattle.embedding_model.specs.Check.{map_fault};
ghost use Rattle.exports_maps.specs.Search.{search_number, search_out};
ghost use Rattle.exports_maps.specs.LeastDepth.{GivesDepth};
ghost use Rattle.exports_maps.specs.Carry.{CarriesPlain};

use embedding_search::search;
use queue_push::Path;
use refusal::number_of;

// The refusal of a list as a map of the source into the target, or 0.
#[unsafe(no_mangle)]
pub extern "C" fn linduvar_check(source: &[u8], target: &[u8], map: &[u8]) -> u8
    ensures { result ≡ map_fault source.now target.now map.now }
{
    number_of(embedding_check::check(source, target, map))
}

// Searches for the least map and writes it to the first 32 bytes of `out`. The answer is the refusal's number; or 255 if there is a map, but no room
// for it in `out`; or 0. Nothing is written unless the answer is 0. C has no Result, and its header names the number 255, which is no refusal's.
#[unsafe(no_mangle)]
pub extern "C" fn linduvar_search(source: &[u8], target: &[u8], out: &mut [u8]) -> u8
    ensures { (result ≡ search_number source.now target.now out.old) × (out.new ≡ search_out source.now target.now out.old) }
{
    match search(source, target) {
        Ok(map) => match out.first_chunk_mut::<32>() {
            Some(front) => {
                *front = map;
                0
            }
            None => 255,
        },
        Err(refusal) => refusal.into(),
    }
}

// Writes to `depth` the least depth of a complete tree, with d children at each inner node, into which the drawing has a map. The answer is the
// refusal's number or 0. Nothing is written unless the answer is 0.
#[unsafe(no_mangle)]
pub extern "C" fn linduvar_least_depth(source: &[u8], d: usize, depth: &mut usize) -> u8
    ensures { GivesDepth source.now d result depth.old depth.new }
{
    match regular_depth::least_depth(source, d) {
        Ok(least) => {
            *depth = least;
            0
        }
        Err(refusal) => refusal.into(),
    }
}

// A path carried over from the source to the target by a map, and 0; or the path as given and the refusal's number.
#[repr(C)]
#[derive(Clone, Copy)]
pub struct Carried {
    pub path: Path,
    pub refusal: u8,
}

// Carries a path over from the source to the target by a map.
#[unsafe(no_mangle)]
pub extern "C" fn linduvar_carry(source: &[u8], target: &[u8], map: &[u8], path: Path) -> Carried
    ensures { CarriesPlain source.now target.now map.now path result }
{
    match translator::carry(source, target, map, path) {
        Ok(carried) => Carried {
            path: carried,
            refusal: 0,
        },
        Err(refusal) => Carried {
            path,
            refusal: refusal.into(),
        },
    }
}
