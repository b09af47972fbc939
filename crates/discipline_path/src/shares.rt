// What one node gives a packet: the rank of its entry, and the finish of the child that the packet goes to.
ghost use Rattle.std.specs.Prelude.{◌≡◌, ◌+◌, ◌*◌, ◌/◌, ◌<◌};
ghost use Rattle.discipline_model.specs.Figure.{number, rank_by};
ghost use Rattle.discipline_path.specs.InnerShares.{finishes_by};

use discipline_model::Discipline;
use queue_state::Rank;

// The rank of an entry, by the start of Figure 1 of document 002 and the packet's class.
pub(crate) fn rank(discipline: Discipline, start: Rank, class: u8) -> Rank
    ensures { result ≡ rank_by (number discipline) start class }
{
    match discipline {
        Discipline::Arrival => 0,
        Discipline::Strict => Rank::from(class),
        Discipline::Weighted => start,
    }
}

// How much later than its start a packet finishes: nothing at weight 0, which no child of a weighted node has.
pub(crate) fn added(length: u16, weight: u8) -> Rank
    ensures { result ≡ (length * 256) / weight }
{
    (Rank::from(length) * 256)
        .checked_div(Rank::from(weight))
        .unwrap_or(0)
}

// The finishes with the child's new one, if the node acts as weighted; none if it does not fit.
pub(crate) fn finished(
    finishes: Option<[Rank; 64]>,
    discipline: Discipline,
    child: usize,
    start: Rank,
    more: Rank,
) -> Option<[Rank; 64]>
    requires { child < 64 }
    ensures { result ≡ finishes_by (number discipline) child (start + more) finishes }
{
    let mut after = finishes?;
    if discipline == Discipline::Weighted {
        after[child] = start.checked_add(more)?;
    }
    Some(after)
}
