//! The adapter that merges the items of many sources by their order.
ghost use Rattle.std.specs.Prelude.{◌≡◌, Option, Result, Ok, None};
ghost use Rattle.fallible_iterator.specs.Comparing.{reads_le};
ghost use Rattle.fallible_iterator.specs.Contract.{parts_as};
ghost use Rattle.fallible_iterator.specs.Laws.Contract.{lawful_parts};
ghost use Rattle.fallible_itertools_joins.specs.KMerge.{kmerge_contract, kmerge_made, kmerge_parts};
ghost use Rattle.fallible_itertools_joins.specs.Laws.KMerge.{lawful_kmerge};
ghost use Rattle.fallible_itertools_joins.specs.Laws.Sides.{lawful_fused};
ghost use Rattle.fallible_itertools_joins.specs.Sides.{fused_contract};

use crate::kmerge_by::{MergeTree, draw_into};
use fallible_iterator::{FallibleIterator, Fuse};

/// The items of many sources, each fused. Of two items the lesser goes first, and of equal ones the earlier source's. A failure of a source is yielded, and loses nothing that is buffered.
#[derive(Drop)]
#[derive_where(Clone; I, I::Item: Clone + Drop)]
#[derive_where(Debug; I, I::Item)]
pub struct KMerge<I: FallibleIterator> {
    pub(crate) tree: MergeTree<Fuse<I>>,
}

impl<I: FallibleIterator> FallibleIterator for KMerge<I>
where
    I::Item: PartialOrd + Drop,
{
    type Item = I::Item;

    type Error = I::Error;

    ghost contract = { parts_as kmerge_parts
        (kmerge_contract I.Item.partial_cmp (fused_contract I.contract)) };

    /// Draws each source of which nothing is buffered, in order, up to the first that fails. Then it compares at each branch where both sides have an item, and yields the item that goes first; the others stay buffered. Each fold draws so too.
    fn next(&mut self) -> Result<Option<I::Item>, I::Error> {
        let mut in_order = |x: &I::Item, y: &I::Item| -> Result<bool, I::Error>
            ensures { result ≡ Ok (reads_le (I.Item.partial_cmp x.now y.now)) }
        { Ok(x <= y) };
        let mut place = None;
        draw_into(&mut self.tree, &mut place, &mut in_order)?;
        Ok(place)
    }

    fn size_hint(&self) -> (usize, Option<usize>) {
        (0, None)
    }

    ghost lawful = { lawful_parts kmerge_made (lawful_kmerge I.Item.partial_cmp (lawful_fused I.lawful)) };
}
