//! The routes of the desk.

ghost use Rattle.std.specs.Prelude.{◌≡◌, IfOk, bytes_eq, option_map};
ghost use Rattle.std.specs.Str.{IsUtf8};
ghost use Rattle.matchit.specs.Seek.{first};
ghost use Rattle.desk_messages.specs.Routes.{IsAllowed, allowed, method_of, page_of, routes};

use crate::Refusal;
use http::Method;
use matchit::{InsertError, Router};
use octets::Memory;
use std::alloc::Global;
use std::str;
use text_reader::same_bytes;

/// What a route is for.
#[derive(Debug, Clone, Copy, PartialEq, Eq, Drop)]
pub(crate) enum Page {
    Tip,
    Verify,
    Stream,
    Push,
}

// The routes with their pages.
fn router(alloc: Global) -> Result<Router<Page>, InsertError>
    ensures { IfOk result (λ router. router ≡ routes) }
{
    let mut router = Router::new(alloc);
    router.insert("/v1/tip", Page::Tip)?;
    router.insert("/v1/verify/{*ref}", Page::Verify)?;
    router.insert("/v1/stream", Page::Stream)?;
    router.insert("/v1/push", Page::Push)?;
    Ok(router)
}

// The page of a target among these routes.
fn page_among(router: &Router<Page>, target: &str) -> Option<Page>
    ensures { result ≡ option_map (λ found. found.value) (first router.now target.now) }
{
    match router.at(target) {
        Ok(found) => Some(*found.value),
        Err(_) => None,
    }
}

// The page of a target.
fn find_page(alloc: Global, target: &[u8]) -> Result<Option<Page>, Memory>
    requires { IsUtf8 target.now }
    ensures { IfOk result (λ page. page ≡ page_of target.now) }
{
    let Ok(text) = str::from_utf8(target) else {
        unreachable!();
    };
    match router(alloc) {
        Ok(router) => Ok(page_among(&router, text)),
        Err(_) => Err(Memory),
    }
}

// Whether a page has this method.
fn has_method(page: Page, method: &[u8]) -> bool
    ensures { result ≡ bytes_eq method.now (method_of page) }
{
    match page {
        Page::Push => same_bytes(method, Method::POST.as_str().as_bytes()),
        Page::Tip | Page::Verify | Page::Stream => {
            same_bytes(method, Method::GET.as_str().as_bytes())
        }
    }
}

/// The page that is asked for, or why none is.
#[derive(Drop)]
pub(crate) enum Choice {
    Is(Page),
    No(Refusal),
    Memory,
}

/// The page that a target and a method ask for. It takes memory for the routes.
pub(crate) fn find_allowed(alloc: Global, method: &[u8], target: &[u8]) -> Choice
    requires { IsUtf8 target.now }
    ensures { IsAllowed (allowed method.now (page_of target.now)) result }
{
    let Ok(found) = find_page(alloc, target) else {
        return Choice::Memory;
    };
    let Some(page) = found else {
        return Choice::No(Refusal::NotFound);
    };
    if has_method(page, method) {
        return Choice::Is(page);
    }
    Choice::No(Refusal::MethodNotAllowed)
}
