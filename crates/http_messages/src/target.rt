//! The path and the query of a target.
ghost use Rattle.std.specs.Prelude.{◌≡◌, option_map};
ghost use Rattle.http_messages.specs.Targets.{path_of, query_of};

/// A target, undecoded.
#[derive(Clone, Copy, Drop)]
pub(crate) struct Target<'b> {
    pub path: &'b str,
    /// What stands behind the first `?`, if there is one.
    pub query: Option<&'b str>,
}

/// The path and the query of a target.
pub(crate) fn split_target(target: &str) -> Target<'_>
    ensures path { result.path.now ≡ path_of target.now }
    ensures query { option_map (λ query. query.now) result.query ≡ query_of target.now }
{
    match target.split_once('?') {
        None => Target {
            path: target,
            query: None,
        },
        Some((path, query)) => Target {
            path,
            query: Some(query),
        },
    }
}
