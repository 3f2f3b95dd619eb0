//! Which route a target has, and the parts of the target that fill its names.
ghost use Rattle.std.specs.Prelude.{◌≡◌, ◌↔◌, ◌≤◌, length, IfErr, IfOk, OnOk, List, Some, drop};
ghost use Rattle.std.specs.Prelude.{option_map, ℕ};
ghost use Rattle.matchit.specs.declared.error.InsertError.TheVariants.{OutOfMemory};
ghost use Rattle.exam_request.specs.Table.{IsFree, table, with_route};
ghost use Rattle.exam_request.specs.Targets.{HasParts, Target, part, reading, reference_in, target_of};
ghost use Rattle.exam_request.specs.Targets.{target_text};
ghost use Rattle.matchit.specs.Level.{IsText};
ghost use Rattle.matchit.specs.Seek.{first};

use matchit::{InsertError, Router};
use std::alloc::Global;

/// A route of the server.
#[derive(Clone, Copy, Debug, PartialEq, Eq)]
pub enum Route {
    /// `/candidates/NUMBER/seats`
    Seats,
    /// `/candidates/NUMBER/clashes`
    Clashes,
    /// `/candidates/NUMBER/appeals`
    Appeals,
    /// `/candidates/NUMBER/appeals/REF`
    Appeal,
}

/// The route of a target with its number, and with its reference, which is empty if the route has none. Both are the
/// bytes of the target, whatever form they have.
#[derive(Clone, Copy)]
pub struct Found<'t> {
    pub route: Route,
    pub number: &'t [u8],
    pub reference: &'t [u8],
}

/// Adds a route that conflicts with none.
fn add(router: &mut Router<Route>, pattern: &str, route: Route) -> Result<(), InsertError>
    requires { IsFree pattern.now router.old }
    ensures rows { OnOk result (router.new ≡ with_route pattern.now route router.old) }
    ensures memory { IfErr result (λ e. e ≡ OutOfMemory) }
{
    router.insert(pattern, route)
}

/// The routes of the server.
pub fn server_routes(alloc: Global) -> Result<Router<Route>, InsertError>
    ensures table { IfOk result (λ r. r ≡ table) }
    ensures memory { IfErr result (λ e. e ≡ OutOfMemory) }
{
    let mut router = Router::new(alloc);
    add(&mut router, "/candidates/{number}/seats", Route::Seats)?;
    add(&mut router, "/candidates/{number}/clashes", Route::Clashes)?;
    add(&mut router, "/candidates/{number}/appeals", Route::Appeals)?;
    add(
        &mut router,
        "/candidates/{number}/appeals/{ref}",
        Route::Appeal,
    )?;
    Ok(router)
}

/// The bytes from a place up to the next slash.
fn part_at(bytes: &[u8], start: usize) -> &[u8]
    ensures value { result.now ≡ part (drop start bytes.now) }
    ensures within { length result.now ≤ length bytes.now }
{
    let rest = bytes.get(start..).unwrap_or(b"");
    let mut end = 0;
    for b in rest {
        if *b == b'/' {
            return &rest[..end];
        }
        end += 1;
    }
    rest
}

/// The reference after a number of this length, or nothing if the route has none.
fn reference_at(route: Route, bytes: &[u8], number: usize) -> &[u8]
    requires { number ≤ length bytes.now }
    ensures { result.now ≡ reference_in route number bytes.now }
{
    match route {
        Route::Appeal => part_at(bytes, number + 21),
        _ => b"",
    }
}

/// What a target says, or none if no route fits the whole of it. `?` and `%` are bytes like any other.
pub fn find<'t>(router: &Router<Route>, target: &'t str) -> Option<Found<'t>>
    requires { router.now ≡ table }
    ensures { option_map target_of result ≡ reading target.now }
{
    let Ok(found) = router.at(target) else {
        return None;
    };
    let route = *found.value;
    let bytes = target.as_bytes();
    let number = part_at(bytes, 12);
    Some(Found {
        route,
        number,
        reference: reference_at(route, bytes, number.len()),
    })
}

/// The router finds what the reading says, and nothing else.
pub fn routes_read()
    ensures { (target : List ℕ) → IsText target
        → option_map (λ r. r.value) (first table target) ≡ option_map (λ t. t.route) (reading target) }
{}

/// A reading gives exactly the parts of the target's text. Each part has one or more bytes without a slash, and every
/// such text is read.
pub fn reading_is_exact()
    ensures { (target : List ℕ) (t : Target)
        → (reading target ≡ Some t) ↔ (HasParts t × (target ≡ target_text t)) }
{}
