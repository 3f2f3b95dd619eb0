//! The methods of each route.
ghost use Rattle.std.specs.Prelude.{◌≡◌, ◌≤◌, codes, length};
ghost use Rattle.std.specs.Str.{bytes_eq};
ghost use Rattle.exam_request.specs.Methods.{allow_text, is_allowed};

use crate::routes::Route;
use http::Method;

/// Whether a method, as its bytes, is one of the route's.
pub fn allows(route: Route, method: &[u8]) -> bool
    ensures { result ≡ is_allowed route method.now }
{
    match route {
        Route::Seats | Route::Clashes => is(Method::GET, method),
        Route::Appeals => is(Method::GET, method) || is(Method::POST, method),
        Route::Appeal => is(Method::DELETE, method),
    }
}

/// The methods of the route, as the line `Allow` has them (RFC 9110, section 10.2.1).
pub fn allowed(route: Route) -> &'static [u8]
    ensures value { result.now ≡ allow_text route }
    ensures short { length result.now ≤ 9 }
{
    match route {
        Route::Seats | Route::Clashes => b"GET",
        Route::Appeals => b"GET, POST",
        Route::Appeal => b"DELETE",
    }
}

/// Whether a method, as its bytes, posts something.
pub fn is_posting(method: &[u8]) -> bool
    ensures { result ≡ bytes_eq method.now (codes "POST") }
{
    is(Method::POST, method)
}

/// Whether these bytes are the method, in capitals.
fn is(wanted: Method, method: &[u8]) -> bool
    ensures { result ≡ bytes_eq method.now wanted }
{
    method == wanted.as_str().as_bytes()
}
