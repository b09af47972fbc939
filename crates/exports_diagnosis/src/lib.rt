// Why a drawing has no map, for a program in C or Rust, with numbers and byte slices: `tests/` links and compares it.
#![tactic(auto)]

ghost use Rattle.std.specs.Prelude.{◌≡◌};
ghost use Rattle.embedding_diagnosis.specs.Diagnosis.{diagnosis};
ghost use Rattle.exports_diagnosis.specs.Plain.{plain_of};

use embedding_diagnosis::Diagnosis;
use refusal::Refusal;

// The refusal of the search, or 0. If it is 12, `node` is the node of the drawing whose branch fits nowhere, and `lack` says what the branch lacks.
// 1: the node is a leaf with `needed` kept nodes above it, and no chip node has more than `there` nodes above it.
// 2: the branch has `needed` leaves, and a branch of the chip where it may go has at most `there`.
// 3: each branch below the node fits somewhere, but not all of them together.
// All numbers that are not named are 0.
#[repr(C)]
#[derive(Clone, Copy)]
pub struct PlainDiagnosis {
    pub refusal: u8,
    pub lack: u8,
    pub node: usize,
    pub needed: usize,
    pub there: usize,
}

impl From<Diagnosis> for PlainDiagnosis {
    ghost from_gives = { λ diagnosis plain. plain ≡ plain_of diagnosis };

    fn from(diagnosis: Diagnosis) -> PlainDiagnosis {
        let no_map: u8 = Refusal::NoMap.into();
        let (refusal, lack, node, needed, there) = match diagnosis {
            Diagnosis::Loads => (0, 0, 0, 0, 0),
            Diagnosis::Refused(refusal) => (refusal.into(), 0, 0, 0, 0),
            Diagnosis::TooDeep(node, needed, there) => (no_map, 1, node, needed, there),
            Diagnosis::TooManyLeaves(node, needed, there) => (no_map, 2, node, needed, there),
            Diagnosis::NotTogether(node) => (no_map, 3, node, 0, 0),
        };
        PlainDiagnosis {
            refusal,
            lack,
            node,
            needed,
            there,
        }
    }
}

// Why a drawing has no map.
#[unsafe(no_mangle)]
pub extern "C" fn linduvar_why(source: &[u8], target: &[u8]) -> PlainDiagnosis
    ensures { result ≡ plain_of (diagnosis source.now target.now) }
{
    embedding_diagnosis::why(source, target).into()
}
