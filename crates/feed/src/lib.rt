// Feeds: lists of packets that are given out one by one, and layers over them.
#![tactic(auto)]

ghost use Rattle.std.specs.Prelude.{◌≡◌, ◌≤◌, List, [], ◌∷◌, length};
ghost use Rattle.std.specs.Borrow.{GName};
ghost use Rattle.feed.specs.Feeds.{feed_limit, Next};

pub mod gap;
pub mod held;
pub mod join;
pub mod stir;
#[cfg(test)]
mod tests;

// No feed has more to come than this: `feed_limit` in the specs.
pub const LIMIT: usize = 1_000_000;

// What gives out packets one by one. Anyone may make one: it says what is still to come, and shows that it is within the limit.
pub trait Feed {
    type Item;

    // what is still to come, in order
    ghost list: { Self → List Self.Item };

    ghost short: { (s : Self) → length (list s) ≤ feed_limit };

    // The names of the `&mut` through which it draws on other feeds. They stay, so whoever lent a feed knows what is left of it.
    ghost lenders: { Self → List GName } = { λ _. [] };

    fn len(&self) -> usize
        ensures { result ≡ length (list self.now) };

    // The first of the list, which it removes; none of an empty one.
    fn next(&mut self) -> Option<Self::Item>
        ensures gives { Next (list self.old) result (list self.new) }
        ensures same { lenders self.new ≡ lenders self.old };
}

// A feed behind a `&mut` is a feed: a layer over it leaves the caller what lies below.
impl<D: Feed> Feed for &mut D {
    type Item = D::Item;

    ghost list = { λ s. D.Feed.list s.now };

    ghost short = { λ s. D.Feed.short s.now };

    ghost lenders = { λ s. s.ghost_name ∷ D.Feed.lenders s.now };

    fn len(&self) -> usize {
        (**self).len()
    }

    fn next(&mut self) -> Option<D::Item> {
        (**self).next()
    }
}
