// The search of the request table by id, as the gate makes it, many times in a row: for a test host in another language that times it.
#![tactic(auto)]

ghost use Rattle.std.specs.Prelude.{◌≡◌};
ghost use Rattle.test_search.specs.Search.{table_with, next_id, searched};

use requests::{Request, Requests, fresh};

// The table in which requests with these ids wait, one at each place from the first on, as far as there are places.
fn table_with(ids: &[u64]) -> Requests
    ensures { result ≡ table_with ids.now }
{
    let mut t = fresh();
    for (i, id) in ids.iter().enumerate() {
        let r = Request {
            id: *id,
            kind: 100,
            target: 0,
            length: 0,
        };
        t.take(i, r);
    }
    t
}

// The id to search for after a search that found this.
fn next_id(next: &[u64], found: Option<usize>) -> u64
    ensures { result ≡ next_id next.now found }
{
    found.and_then(|i| next.get(i).copied()).unwrap_or(0)
}

// Makes n searches in the table of these ids: the first for the id `first`, each other for the id that `next` has for the place where the
// one before it matched, or for 0. Tells the id that comes after them.
#[unsafe(no_mangle)]
pub extern "C" fn test_search(ids: &[u64], next: &[u64], first: u64, n: usize) -> u64
    ensures { result ≡ searched (table_with ids.now) next.now n first }
{
    let t = table_with(ids);
    let mut id = first;
    for _ in 0..n {
        id = next_id(next, t.find_id(id));
    }
    id
}
