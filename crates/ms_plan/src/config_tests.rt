//! Configurations whose first wrong line, or whose genesis, was known before.

use crate::{Config, config_laws, read_config};
use ms_base::{ClientId, Name, ServiceId};
use ms_record::{Place, Refusal, entry_name};
use std::alloc::{AllocError, Global};
use std::test::*;

const HEAD: &str = "{\"metasync\":1,\"replicas\":2,\"unit\":1000}\n";

const SERVICES: &str =
    "{\"service\":\"s1\",\"capacity\":1000}\n{\"service\":\"s2\",\"capacity\":1000}\n{\"service\":\"s3\",\"capacity\":1000}\n";

const CLIENTS: &str = "{\"client\":\"ann\"}\n{\"client\":\"bob\"}\n";

/// The names of the whole text, of the empty version and of the genesis, from another implementation of SHA-256.
const BEFORE: &str = "5994d3ab064cd8731a3fb633892cf57ea82ffb66b3158fb799247f066119563b";

const EMPTY_VERSION: &str = "6b9ce37125d27bc09b26052a8cc89f345bbabd19efa659468a5edc6a72f17cb3";

const GENESIS: &str = "4795be560494bc604ee82b173b0cde0cc44426d8d1fa5b4ac4ce6237ba82e89f";

/// A head, services and clients, one behind the other.
fn joined(alloc: Global, head: &str, services: &str, clients: &str) -> Result<String, AllocError> {
    format!(in alloc; "{head}{services}{clients}")
}

/// The first wrong line, or 0.
fn wrong_line(alloc: Global, text: &[u8]) -> u32 {
    match read_config(alloc, text) {
        Err(
            Refusal::BadInput {
                place: Place::Config,
                line,
            },
        ) => line,
        _ => 0,
    }
}

/// What is said of the configuration of the three services, where the first has this capacity.
fn with_capacity(alloc: Global, capacity: u64) -> Result<Result<Config, Refusal>, AllocError> {
    let text = format!(in alloc;
        "{HEAD}{{\"service\":\"s1\",\"capacity\":{capacity}}}\n{{\"service\":\"s2\",\"capacity\":1000}}\n{{\"service\":\"s3\",\"capacity\":1000}}\n{CLIENTS}"
    )?;
    Ok(read_config(alloc, text.as_bytes()))
}

/// How many copies the first service has.
fn copies(config: &Config) -> Option<u64> {
    let plan = config.setting().genesis.plan?;
    let row = plan.rows().first()?;
    Some(row.capacity / plan.unit())
}

/// Whether this is the first wrong line of a head, services and clients; 0 where none is wrong.
fn is_wrong_at(alloc: Global, head: &str, services: &str, clients: &str, line: u32) -> bool {
    match joined(alloc, head, services, clients) {
        Ok(text) => wrong_line(alloc, text.as_bytes()) == line,
        Err(_) => false,
    }
}

/// Whether this is the first wrong line where a line stands behind the three services.
fn service_is_wrong_at(alloc: Global, service: &str, line: u32) -> bool {
    match format!(in alloc; "{SERVICES}{service}") {
        Ok(services) => is_wrong_at(alloc, HEAD, services.as_str(), CLIENTS, line),
        Err(_) => false,
    }
}

/// Whether this is the first wrong line where a line stands behind the two clients.
fn client_is_wrong_at(alloc: Global, client: &str, line: u32) -> bool {
    match format!(in alloc; "{CLIENTS}{client}") {
        Ok(clients) => is_wrong_at(alloc, HEAD, SERVICES, clients.as_str(), line),
        Err(_) => false,
    }
}

/// The configuration of three services and two clients.
fn three_and_two(alloc: Global) -> Result<Config, Fail> {
    let text = joined(alloc, HEAD, SERVICES, CLIENTS)?;
    Ok(read_config(alloc, text.as_bytes()).ok().ok_or("read")?)
}

/// Whether these digits spell the name.
fn is_named(alloc: Global, name: &Name, digits: &str) -> bool {
    match hex::encode(alloc, &name.0) {
        Ok(text) => text.as_str() == digits,
        Err(_) => false,
    }
}

#[test]
fn three_services_and_two_clients(rt: HostRuntime) -> Result<(), Fail> {
    let config = three_and_two(rt.alloc())?;
    assert_eq!(rt; config.setting().services, 3);
    assert_eq!(rt; config.setting().clients, 2);
    Ok(())
}

#[test]
fn names_of_a_genesis(rt: HostRuntime) -> Result<(), Fail> {
    let config = three_and_two(rt.alloc())?;
    let genesis = &config.setting().genesis;
    assert!(rt; is_named(rt.alloc(), &genesis.before, BEFORE));
    assert!(rt; is_named(rt.alloc(), &genesis.version, EMPTY_VERSION));
    assert!(rt; is_named(rt.alloc(), &entry_name(genesis), GENESIS));
    Ok(())
}

#[test]
fn clients_by_their_labels(rt: HostRuntime) -> Result<(), Fail> {
    let config = three_and_two(rt.alloc())?;
    assert!(rt; config.client("bob") == Some(ClientId(1)));
    assert!(rt; config.client("s1").is_none());
    assert!(rt; config.client_label(ClientId(1)) == Some("bob"));
    Ok(())
}

#[test]
fn services_by_their_numbers(rt: HostRuntime) -> Result<(), Fail> {
    let config = three_and_two(rt.alloc())?;
    assert!(rt; config.service_label(ServiceId(2)) == Some("s3"));
    assert!(rt; config.service_label(ServiceId(3)).is_none());
    Ok(())
}

#[test]
fn replicas_above_the_services(rt: HostRuntime) {
    let head = "{\"metasync\":1,\"replicas\":4,\"unit\":1000}\n";
    assert!(rt; is_wrong_at(rt.alloc(), head, SERVICES, CLIENTS, 5));
    assert!(rt; is_wrong_at(rt.alloc(), head, SERVICES, "", 5));
}

#[test]
fn as_many_replicas_as_services(rt: HostRuntime) {
    let head = "{\"metasync\":1,\"replicas\":3,\"unit\":1000}\n";
    assert!(rt; is_wrong_at(rt.alloc(), head, SERVICES, CLIENTS, 0));
}

/// Whether the first of three services has so many copies at this capacity.
fn has_copies(alloc: Global, capacity: u64, wanted: u64) -> bool {
    match with_capacity(alloc, capacity) {
        Ok(Ok(config)) => copies(&config) == Some(wanted),
        _ => false,
    }
}

/// Whether line 2 is the first wrong one at this capacity of the first service.
fn is_wrong_capacity(alloc: Global, capacity: u64) -> bool {
    match with_capacity(alloc, capacity) {
        Ok(
            Err(
                Refusal::BadInput {
                    place: Place::Config,
                    line,
                },
            ),
        ) => line == 2,
        _ => false,
    }
}

#[test]
fn capacities_of_a_configuration(rt: HostRuntime) {
    assert!(rt; has_copies(rt.alloc(), 1_000, 1));
    assert!(rt; has_copies(rt.alloc(), 16_999, 16));
    assert!(rt; is_wrong_capacity(rt.alloc(), 999));
    assert!(rt; is_wrong_capacity(rt.alloc(), 17_000));
}

/// First lines outside the grammar.
const WRONG_HEADS: [&str; 15] = [
    "\n",
    "{\"metasync\":2,\"replicas\":2,\"unit\":1000}\n",
    "{\"metasync\":1,\"replicas\":0,\"unit\":1000}\n",
    "{\"metasync\":1,\"replicas\":17,\"unit\":1000}\n",
    "{\"metasync\":1,\"replicas\":2,\"unit\":0}\n",
    "{\"metasync\":1,\"replicas\":2}\n",
    "{\"metasync\":1,\"replicas\":2,\"unit\":1000,\"more\":1}\n",
    "{\"metasync\":1.0,\"replicas\":2,\"unit\":1000}\n",
    "{\"metasync\":1,\"replicas\":2.0,\"unit\":1000}\n",
    "{\"metasync\":1,\"replicas\":2,\"unit\":18446744073709551616}\n",
    "{\"metasync\":1,\"replicas\":2,\"unit\":1e3}\n",
    "{\"metasync\":1,\"replicas\":2,\"unit\":-0}\n",
    "{\"metasync\":1,\"replicas\":\"2\",\"unit\":1000}\n",
    "[1,2,1000]\n",
    "{\"metasync\":1,\"replicas\":2,\"unit\":1000}}\n",
];

#[test]
fn heads_outside_the_grammar(rt: HostRuntime) {
    for head in WRONG_HEADS {
        assert!(rt; is_wrong_at(rt.alloc(), head, SERVICES, CLIENTS, 1));
    }
}

#[test]
fn no_line_at_all(rt: HostRuntime) {
    assert_eq!(rt; wrong_line(rt.alloc(), b""), 1);
}

/// First lines in other spellings.
const HEADS: [&str; 3] = [
    " {\"unit\" : 1000, \"replicas\":2 ,\"metasync\":1}\r\n",
    "{\"metasync\":7,\"replicas\":2,\"unit\":1000,\"metasync\":1}\n",
    "{\"metasync\":1,\"replicas\":2,\"\\u0075nit\":1000}\n",
];

#[test]
fn heads_in_other_spellings(rt: HostRuntime) {
    for head in HEADS {
        assert!(rt; is_wrong_at(rt.alloc(), head, SERVICES, CLIENTS, 0));
    }
}

/// Lines that may not stand behind three services.
const WRONG_SERVICES: [&str; 11] = [
    "\n",
    "{\"service\":\"s1\",\"capacity\":1000}\n",
    "{\"service\":\"-s\",\"capacity\":1000}\n",
    "{\"service\":\"S\",\"capacity\":1000}\n",
    "{\"service\":\"\",\"capacity\":1000}\n",
    "{\"service\":\"abcdefghijklmnopqrstuvwxy\",\"capacity\":1000}\n",
    "{\"service\":\"s\",\"capacity\":1000.0}\n",
    "{\"service\":\"s\"}\n",
    "{\"service\":\"s\",\"capacity\":1000,\"client\":\"c\"}\n",
    "{\"service\":4,\"capacity\":1000}\n",
    "{\"metasync\":1,\"replicas\":2,\"unit\":1000}\n",
];

#[test]
fn services_outside_the_grammar(rt: HostRuntime) {
    for service in WRONG_SERVICES {
        assert!(rt; service_is_wrong_at(rt.alloc(), service, 5));
    }
}

/// Services that may stand behind three.
const FOURTH_SERVICES: [&str; 3] = [
    "{\"capacity\":1000,\"service\":\"abcdefghijklmnopqrstuvwx\"}\n",
    "{\"service\":\"0_-z\",\"capacity\":16999}\n",
    "{\"service\":\"ann\",\"capacity\":1000}\n",
];

#[test]
fn services_in_other_spellings(rt: HostRuntime) {
    for service in FOURTH_SERVICES {
        assert!(rt; service_is_wrong_at(rt.alloc(), service, 0));
    }
}

/// Lines that may not stand behind two clients.
const WRONG_CLIENTS: [&str; 11] = [
    "{\"client\":\"ann\"}\n",
    "{\"client\":\"Ann\"}\n",
    "{\"client\":null}\n",
    "{\"client\":\"eve\",\"capacity\":1000}\n",
    "{\"service\":\"s4\",\"capacity\":1000}\n",
    "{\"client\":\"\\u0061nn\"}\n",
    "\u{feff}{\"client\":\"eve\"}\n",
    "{\"client\":\"eve\",\"client\":\"ann\"}\n",
    "null\n",
    "\r\n",
    "\n",
];

#[test]
fn clients_outside_the_grammar(rt: HostRuntime) {
    for client in WRONG_CLIENTS {
        assert!(rt; client_is_wrong_at(rt.alloc(), client, 7));
    }
}

#[test]
fn parties_that_are_missing(rt: HostRuntime) {
    assert!(rt; is_wrong_at(rt.alloc(), HEAD, SERVICES, "", 5));
    assert!(rt; is_wrong_at(rt.alloc(), HEAD, "", CLIENTS, 2));
    assert!(rt; is_wrong_at(rt.alloc(), HEAD, "", "", 2));
}

#[test]
fn a_last_line_without_an_end(rt: HostRuntime) {
    assert!(rt; is_wrong_at(rt.alloc(), HEAD, SERVICES, "{\"client\":\"eve\"}", 0));
}

/// Clients that may stand behind two.
const THIRD_CLIENTS: [&str; 3] = [
    "{\"client\":\"s1\"}\n",
    "{\"\\u0063lient\":\"\\u0065ve\"}\n",
    "\t{\"client\":\"ann\", \"client\":\"eve\" } \r\n",
];

#[test]
fn clients_in_other_spellings(rt: HostRuntime) {
    for client in THIRD_CLIENTS {
        assert!(rt; client_is_wrong_at(rt.alloc(), client, 0));
    }
}

/// So many lines, whose labels are a letter and a number.
fn many(alloc: Global, count: u32, before: &str, after: &str) -> Result<String, AllocError> {
    let mut text = String::new(alloc);
    for number in 0..count {
        let line = format!(in alloc; "{before}{number}{after}")?;
        text.push_str(line.as_str())?;
    }
    Ok(text)
}

/// Whether this is the first wrong line of so many services and clients.
fn many_are_wrong_at(
    alloc: Global,
    services: u32,
    clients: u32,
    line: u32,
) -> Result<bool, AllocError> {
    let services = many(
        alloc,
        services,
        "{\"service\":\"s",
        "\",\"capacity\":1000}\n",
    )?;
    let clients = many(alloc, clients, "{\"client\":\"c", "\"}\n")?;
    Ok(is_wrong_at(alloc, HEAD, services.as_str(), clients.as_str(), line))
}

#[test]
fn sixteen_of_each(rt: HostRuntime) -> Result<(), Fail> {
    assert!(rt; many_are_wrong_at(rt.alloc(), 16, 16, 0)?);
    Ok(())
}

#[test]
fn seventeen_services(rt: HostRuntime) -> Result<(), Fail> {
    assert!(rt; many_are_wrong_at(rt.alloc(), 17, 16, 18)?);
    Ok(())
}

#[test]
fn seventeen_clients(rt: HostRuntime) -> Result<(), Fail> {
    assert!(rt; many_are_wrong_at(rt.alloc(), 16, 17, 34)?);
    Ok(())
}

#[test]
fn a_service_too_few_for_the_replicas(rt: HostRuntime) -> Result<(), Fail> {
    assert!(rt; many_are_wrong_at(rt.alloc(), 1, 1, 3)?);
    Ok(())
}

#[test]
fn a_line_that_is_no_text(rt: HostRuntime) -> Result<(), Fail> {
    // The law asks nothing of its caller, and a call of it does nothing when the program runs.
    config_laws();
    let alloc = rt.alloc();
    let text = joined(alloc, HEAD, SERVICES, CLIENTS)?;
    let mut bytes = Vec::from_slice(alloc, text.as_bytes())?;
    bytes.extend_from_slice(b"{\"client\":\"\xff\"}")?;
    assert_eq!(rt; wrong_line(alloc, &bytes), 7);
    Ok(())
}
