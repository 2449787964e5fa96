//! The head of a drill.

ghost use Rattle.std.specs.Prelude.{◌≡◌, IfSome};
ghost use Rattle.ms_drill.specs.Drills.{IsHead};
ghost use Rattle.ms_drill.specs.Lines.{head_at, numbers_at, head_if};

use ms_text::{number, split_at_space};

/// How many services, clients and replicas: 1 to 16 each, the replicas not more than the services.
#[derive(Clone, Copy, Debug, PartialEq, Eq)]
pub struct Head {
    pub services: u32,
    pub clients: u32,
    pub replicas: u32,
}

/// The greatest of the three numbers.
const MOST: u64 = 16;

/// `N C R`.
#[tactic(auto, unfolding(crate::specs::Lines::numbers_at))]
fn read_numbers(text: &[u8]) -> Option<Head>
    ensures is { result ≡ numbers_at text.now }
    ensures fits { IfSome result IsHead }
{
    let (first, rest) = split_at_space(text)?;
    let (second, third) = split_at_space(rest)?;
    let services = number(first, MOST)?;
    let clients = number(second, MOST)?;
    let replicas = number(third, MOST)?;
    if services >= 1 && clients >= 1 && replicas >= 1 && replicas <= services {
        Some(Head {
            services: services as u32,
            clients: clients as u32,
            replicas: replicas as u32,
        })
    } else {
        None
    }
}

/// The head of a drill: `metasync-drill 1 N C R`.
#[tactic(auto, unfolding(crate::specs::Lines::head_at))]
pub(crate) fn read_head(line: &[u8]) -> Option<Head>
    ensures is { result ≡ head_at line.now }
    ensures fits { IfSome result IsHead }
{
    let (first, rest) = split_at_space(line)?;
    let (second, rest) = split_at_space(rest)?;
    if first == b"metasync-drill".as_slice() && second == b"1".as_slice() {
        read_numbers(rest)
    } else {
        None
    }
}
