//! What holds of the routes' texts and of the router that has taken them.

ghost use Rattle.std.specs.Prelude.{ℕ, List, IsUtf8};
ghost use Rattle.matchit.specs.Level.{IsText};
ghost use Rattle.matchit.specs.Seek.{first};
ghost use Rattle.http_messages.specs.Routes.{named_in};
ghost use Rattle.http_messages.specs.Routers.{office_rows, Finds};

/// The walk of the router over a path of UTF-8 finds a route exactly where the path is of a route's text, by whole segments, and it is that
/// route; its names take the segments that stand for those in braces.
pub fn router_finds_by_texts()
    ensures { (path : List ℕ) → IsText path → IsUtf8 path → Finds path (first office_rows path) (named_in path) }
{}
