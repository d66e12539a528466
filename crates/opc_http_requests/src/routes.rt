//! The routes.
ghost use Rattle.std.specs.Prelude.{◌≡◌, IfOk};
ghost use Rattle.opc_http_requests.specs.Routes.{route_of, the_routes};
ghost use Rattle.opc_http_requests.specs.declared.origins.Origins.TheVariants.{Any, Only};

use crate::origins::Origins;
use matchit::{InsertError, Router};
use std::alloc::Global;
use std::marker::Model;

/// What a request asks for, by its path.
#[derive(Clone, Copy, PartialEq, Eq)]
pub enum Route {
    Command,
    Admin,
    Import,
    ListProfiles,
    ListAccount,
}

/// The five routes, and from where requests are accepted.
#[derive(Drop)]
pub struct Routes {
    router: Router<Route>,
    origins: Origins,
}

impl Model for Routes {
    ghost use Rattle.std.specs.Prelude.{◌≡◌};
    ghost use Rattle.opc_http_requests.specs.Routes.{the_routes};
    ghost use Rattle.opc_http_requests.specs.declared.origins.Origins.{Origins};

    ghost Value = { Origins };

    ghost view = { λ routes. routes.origins };

    ghost invariant = { λ routes. routes.router ≡ the_routes };
}

// What `matchit`, and `httparse` for heads, promise is proved in their own crates. Our definition, `route_of`, cuts the
// path at its slashes, so a reader need not know the router.
fn router(alloc: Global) -> Result<Router<Route>, InsertError>
    ensures { IfOk result (λ router. router ≡ the_routes) }
{
    let mut router = Router::new(alloc);
    router.insert("/consoles/{console}/command", Route::Command)?;
    router.insert("/consoles/{console}/admin", Route::Admin)?;
    router.insert("/consoles/{console}/import/{batch}", Route::Import)?;
    router.insert("/consoles/{console}/profiles/{class}", Route::ListProfiles)?;
    router.insert(
        "/consoles/{console}/account/{from}/{count}",
        Route::ListAccount,
    )?;
    Ok(router)
}

impl Routes {
    /// The routes, unless an allocation fails. Requests are accepted from anywhere.
    pub fn new(alloc: Global) -> Result<Self, NoMemory>
        ensures { IfOk result (λ routes. routes ≡ Any) }
    {
        Routes::from_origins(alloc, Origins::Any)
    }

    /// The routes at a port of this computer, unless an allocation fails. What a web page can send is not accepted.
    pub fn strict(alloc: Global, port: u16) -> Result<Self, NoMemory>
        ensures { IfOk result (λ routes. routes ≡ Only port) }
    {
        Routes::from_origins(alloc, Origins::Only(port))
    }

    fn from_origins(alloc: Global, origins: Origins) -> Result<Self, NoMemory>
        ensures { IfOk result (λ routes. routes ≡ origins) }
    {
        match router(alloc) {
            Ok(router) => Ok(Routes { router, origins }),
            Err(_) => Err(NoMemory),
        }
    }

    /// From where requests are accepted.
    pub fn origins(&self) -> Origins
        ensures { result ≡ self.now }
    {
        self.origins
    }

    /// The route of a path, if it has one.
    pub fn route_of(&self, path: &str) -> Option<Route>
        ensures { result ≡ route_of path.now }
    {
        route_in(&self.router, path)
    }
}

fn route_in(router: &Router<Route>, path: &str) -> Option<Route>
    requires { router.now ≡ the_routes }
    ensures { result ≡ route_of path.now }
{
    match router.at(path) {
        Ok(found) => Some(*found.value),
        Err(_) => None,
    }
}

/// An allocation failed.
#[derive(Clone, Copy, PartialEq, Eq)]
pub struct NoMemory;
