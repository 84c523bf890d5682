// The join layer: the packets of one feed, then those of another.
ghost use Rattle.std.specs.Prelude.{◌≡◌, ◌++◌};
ghost use Rattle.feed.specs.Layers.{joined};
ghost use Rattle.feed.specs.Lists.{join_list};
ghost use Rattle.feed.specs.Lengths.{join_short};

use crate::{Feed, LIMIT};

// `given` is how many packets were given out.
#[derive(Drop)]
pub struct Join<C, D> {
    first: C,
    second: D,
    given: usize,
}

impl<C: Feed, D: Feed<Item = C::Item>> Join<C, D> {
    pub fn new(first: C, second: D) -> Join<C, D>
        ensures list { join_list C.Feed.list D.Feed.list result ≡ joined (C.Feed.list first) (D.Feed.list second) }
        ensures lower { (result.first ≡ first) × (result.second ≡ second) }
    {
        Join {
            first,
            second,
            given: 0,
        }
    }
}

impl<C: Feed, D: Feed<Item = C::Item>> Feed for Join<C, D> {
    type Item = C::Item;

    ghost list = { join_list C.Feed.list D.Feed.list };

    ghost short = { λ s. join_short s.given (C.Feed.list s.first) (D.Feed.list s.second) };

    ghost lenders = { λ s. C.Feed.lenders s.first ++ D.Feed.lenders s.second };

    fn len(&self) -> usize {
        let below = self.first.len() + self.second.len();
        LIMIT.saturating_sub(self.given).min(below)
    }

    fn next(&mut self) -> Option<C::Item> {
        if self.given >= LIMIT {
            return None;
        }
        self.given += 1;
        match self.first.next() {
            Some(packet) => Some(packet),
            None => self.second.next(),
        }
    }
}
