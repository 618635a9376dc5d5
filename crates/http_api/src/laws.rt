//! What holds of what a stream asks, whatever answers it.

ghost use Rattle.std.specs.Prelude.{◌≡◌, ◌<◌, ◌+◌, ◌++◌, ℕ, List, length};
ghost use Rattle.http_messages.specs.Streams.{Item, items_within};
ghost use Rattle.http_api.specs.Messages.{AreMessages};

/// Whole messages that don't end the connection ask what they ask, whatever follows them, and behind them is asked what the bytes behind
/// them ask by themselves. `n` more than these may be answered.
pub fn messages_stand_alone()
    ensures { (bytes : List ℕ) (items : List Item) (n : ℕ) (behind : List ℕ) → AreMessages bytes items → 0 < n
        → items_within (length items + n) (bytes ++ behind) ≡ items ++ items_within n behind }
{}
