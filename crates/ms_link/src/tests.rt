use crate::LinkError;
use ms_base::{Failed, NoMemory};
use std::alloc::Global;
use std::test::*;

#[test]
fn errors_and_their_texts(rt: HostRuntime) -> Result<(), Fail> {
    let stale = LinkError::Stale { floor: 2 };
    let text = format!(in rt.alloc(); "{stale}")?;
    assert_eq!(rt;
        text.as_str(),
        "the service has dropped all generations below 2"
    );
    assert_eq!(rt; LinkError::from(Failed), LinkError::Failed);
    assert_eq!(rt; LinkError::from(NoMemory), LinkError::NoMemory);
    Ok(())
}
