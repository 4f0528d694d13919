// A hundred thousand names. A walk along the names at each look-up would outlast the time that a test has.
use site_base::{OutOfMemory, Text};
use site_model::Names;
use std::alloc::Global;
use std::test::Fail;

fn numbered(alloc: Global, number: u32) -> Result<Text, OutOfMemory> {
    let mut name = Text::copy_of(alloc, "host ")?;
    name.push_decimal(u64::from(number))?;
    Ok(name)
}

#[test]
fn many_names(rt: HostRuntime) -> Result<(), Fail> {
    let mut names = Names::new(rt.alloc());
    for number in 0..100_000 {
        assert!(rt; names.len() < 100_000);
        assert!(rt; names.add(numbered(rt.alloc(), number)?)? == number);
    }
    for number in 0..100_000 {
        assert!(rt; names.find(numbered(rt.alloc(), number)?.as_str()) == Some(number));
    }
    assert!(rt; names.find("host 100000") == None);
    Ok(())
}
