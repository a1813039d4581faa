//! The desk that the words ask for.

ghost use Rattle.std.specs.Prelude.{◌≡◌, ◌<◌, true, false, OnOk, length};
ghost use Rattle.desk_http.specs.Opening.{Serves};
ghost use Rattle.desk_http.specs.Served.{AreServed, EndsAs};

use crate::ServeWords;
use desk_http::{GatedDesk, OpenDesk, Served, serve_gate, serve_store};
use keeper_api::Keeper;
use std::alloc::Global;
use std::net::{Net, TcpListener, TcpStream};
use std::sync::Wait;
use std::thread::Threads;

/// Serves over a store by the desk that a `serve` command asks for, and gives the store back: by one with a gate
/// exactly where a gate is asked for. What it leaves is what `serve_gate` or `serve_store` does.
pub fn serve_asked<R, W>(rt: &W, alloc: Global, store: R, asked: &ServeWords) -> (R, Served)
where
    R: Keeper + Drop + Send + 'static,
    W: Threads + Wait + Sync + Net<Listener = TcpListener, Stream = TcpStream>,
    requires { 0 < asked.now.workers }
    ensures serves { Serves R.Keeper store result.0 result.1.end }
    ensures gate { asked.now.gate ≡ true
        → AreServed ⟦<GatedDesk<R> as desk_http::Serves>⟧ asked.now.connections result.1.workers.items }
    ensures no_gate { asked.now.gate ≡ false
        → AreServed ⟦<OpenDesk<R> as desk_http::Serves>⟧ asked.now.connections result.1.workers.items }
    ensures count { OnOk result.1.end (length result.1.workers.items ≡ asked.now.workers) }
    ensures ends { EndsAs result.1.workers.items result.1.end }
{
    let (port, workers, connections) = (asked.port, asked.workers, asked.connections);
    if asked.gate {
        serve_gate(rt, alloc, store, port, workers, connections)
    } else {
        serve_store(rt, alloc, store, port, workers, connections)
    }
}
