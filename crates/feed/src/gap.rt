// The gap layer: leaves out the packet at one place.
ghost use Rattle.std.specs.Prelude.{◌≡◌};
ghost use Rattle.feed.specs.Layers.{gapped};
ghost use Rattle.feed.specs.Lists.{gap_list};
ghost use Rattle.feed.specs.Lengths.{gap_short};

use crate::Feed;

// `place` is how many packets come before the gap, while it is ahead.
#[derive(Drop)]
pub struct Gap<D> {
    lower: D,
    place: Option<usize>,
}

impl<D: Feed> Gap<D> {
    pub fn new(lower: D, place: usize) -> Gap<D>
        ensures list { gap_list D.list result ≡ gapped place (D.list lower) }
        ensures lower { result.lower ≡ lower }
    {
        Gap {
            lower,
            place: Some(place),
        }
    }
}

impl<D: Feed> Feed for Gap<D>
where
    D::Item: Drop,
{
    type Item = D::Item;

    ghost list = { gap_list D.Feed.list };

    ghost short = { λ s. gap_short s.place (D.Feed.list s.lower) (D.Feed.short s.lower) };

    ghost lenders = { λ s. D.Feed.lenders s.lower };

    fn len(&self) -> usize {
        let below = self.lower.len();
        match self.place {
            Some(place) if place < below => below - 1,
            _ => below,
        }
    }

    fn next(&mut self) -> Option<D::Item> {
        if self.place == Some(0) {
            let _ = self.lower.next();
        }
        self.place = self.place.and_then(|place| place.checked_sub(1));
        self.lower.next()
    }
}
