//! The six routes.
ghost use Rattle.std.specs.Prelude.{◌≡◌, option_map, IfOk};
ghost use Rattle.http_messages.specs.Routes.{route_of, part_name, may_have_query, method_of};
ghost use Rattle.http_messages.specs.Routers.{office_rows};
ghost use Rattle.http_messages.specs.Askings.{route_at};

use http::Method;
use matchit::{InsertError, Router};
use std::alloc::{AllocError, Global};
use std::marker::Model;

/// The path of requests, with the literal that stands behind it.
macro_rules! requests_path {
    ($behind:literal) => {
        concat!("/v1/requests/", $behind)
    };
}

/// The path of requests: a request's number stands behind it. This project's own rule.
pub const REQUESTS_PATH: &str = requests_path!("");

/// Which route it is.
#[derive(Clone, Copy, Drop)]
pub(crate) enum RouteKind {
    /// `POST /v1/requests/{number}`
    Requests,
    /// `GET /v1/export/{lang}` and `GET /v1/domains/{domain}/export/{lang}`
    Export,
    /// `GET /v1/unit?domain=&lang=&id=&ctx=`
    Unit,
    /// `GET /v1/stats/{lang}` and `GET /v1/domains/{domain}/stats/{lang}`
    Stats,
}

/// A route, with the parts of the path that it names.
#[derive(Clone, Copy, Drop)]
pub(crate) struct Route<'b> {
    pub kind: RouteKind,
    /// The domain, where the path names one.
    pub domain: Option<&'b str>,
    /// What stands at the last place in braces; empty where the route has none.
    pub part: &'b str,
}

impl RouteKind {
    /// The method that the route takes.
    pub(crate) fn method(self) -> Method
        ensures { result ≡ method_of self }
    {
        match self {
            RouteKind::Requests => Method::POST,
            RouteKind::Export | RouteKind::Unit | RouteKind::Stats => Method::GET,
        }
    }

    /// Whether a target of the route may have a query.
    pub(crate) fn may_have_query(self) -> bool
        ensures { result ≡ may_have_query self }
    {
        match self {
            RouteKind::Unit => true,
            RouteKind::Requests | RouteKind::Export | RouteKind::Stats => false,
        }
    }

    /// The name of the part beside the domain, if the route has one.
    fn part_name(self) -> &'static str
        ensures { result.now ≡ part_name self }
    {
        match self {
            RouteKind::Requests => "number",
            RouteKind::Export | RouteKind::Stats => "lang",
            RouteKind::Unit => "",
        }
    }
}

/// A router that takes the routes' texts. An error where a growth was refused.
fn router(alloc: Global) -> Result<Router<RouteKind>, InsertError>
    ensures { IfOk result (λ router. router ≡ office_rows) }
{
    let mut router = Router::new(alloc);
    router.insert(requests_path!("{number}"), RouteKind::Requests)?;
    router.insert("/v1/export/{lang}", RouteKind::Export)?;
    router.insert("/v1/domains/{domain}/export/{lang}", RouteKind::Export)?;
    router.insert("/v1/unit", RouteKind::Unit)?;
    router.insert("/v1/stats/{lang}", RouteKind::Stats)?;
    router.insert("/v1/domains/{domain}/stats/{lang}", RouteKind::Stats)?;
    Ok(router)
}

/// The routes of the office, ready to tell that of a path.
#[derive(Drop)]
pub struct Routes {
    router: Router<RouteKind>,
}

impl Model for Routes {
    ghost use Rattle.std.specs.Prelude.{◌≡◌};
    ghost use Rattle.matchit.specs.Rows.{RowsOf};
    ghost use Rattle.matchit.specs.Router.{RouteOf};
    ghost use Rattle.http_messages.specs.declared.route.RouteKind.{RouteKind};
    ghost use Rattle.http_messages.specs.Routers.{office_rows};

    ghost Value = { RowsOf (RouteOf RouteKind) };

    ghost view = { λ routes. routes.router };

    ghost invariant = { λ routes. routes.router ≡ office_rows };
}

impl Routes {
    /// The routes of the office. An error where a growth was refused.
    pub fn new(alloc: Global) -> Result<Routes, AllocError> {
        match router(alloc) {
            Ok(router) => Ok(Routes { router }),
            Err(_) => Err(AllocError),
        }
    }

    /// The route of a path, which is taken undecoded.
    pub(crate) fn route_of<'b>(&self, path: &'b str) -> Option<Route<'b>>
        ensures { option_map route_at result ≡ route_of path.now }
    {
        let Ok(found) = self.router.at(path) else {
            return None;
        };
        let kind = *found.value;
        Some(Route {
            kind,
            domain: found.params.get("domain"),
            part: found.params.get(kind.part_name()).unwrap_or(""),
        })
    }
}
