//! Paths.

ghost use Rattle.std.specs.Prelude.{◌≡◌, ◌<◌, length, slice_get};
ghost use Rattle.run_laws.specs.Routes.{queue_at, server_after, first_server, last_server};
ghost use Rattle.net_model.specs.NetRoutes.{hops_along};

/// The server at a place of a path, if it has the place.
pub(crate) fn server_on(path: &[u32], place: usize) -> Option<u32>
    ensures { result ≡ slice_get path.now place }
{
    match path.get(place) {
        Some(server) => Some(*server),
        None => None,
    }
}

/// The queue of a path at a server; 0 where it does not pass there.
pub(crate) fn queue_on(path: &[u32], queues: &[u32], server: u32) -> u32
    requires { length queues.now ≡ length path.now }
    ensures { result ≡ queue_at server (hops_along path.now queues.now) }
{
    for (hop, at) in path.iter().enumerate() {
        if *at == server {
            return queues[hop];
        }
    }
    0
}

/// The server after a server on a path, if there is one.
pub(crate) fn server_after_on(path: &[u32], queues: &[u32], server: u32) -> Option<u32>
    requires { length queues.now ≡ length path.now }
    ensures { result ≡ server_after server (hops_along path.now queues.now) }
{
    for (hop, at) in path.iter().enumerate() {
        if *at == server {
            return server_on(path, hop + 1);
        }
    }
    None
}

/// The first server of a path; 0 where it has none.
pub(crate) fn first_on(path: &[u32], queues: &[u32]) -> u32
    requires { length queues.now ≡ length path.now }
    ensures { result ≡ first_server (hops_along path.now queues.now) }
{
    match server_on(path, 0) {
        Some(server) => server,
        None => 0,
    }
}

/// The last server of a path; 0 where it has none.
pub(crate) fn last_on(path: &[u32], queues: &[u32]) -> u32
    requires { length queues.now ≡ length path.now }
    ensures { result ≡ last_server (hops_along path.now queues.now) }
{
    match path.last() {
        Some(server) => *server,
        None => 0,
    }
}
