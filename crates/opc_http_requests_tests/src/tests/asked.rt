//! One request of each route, and the values of its path.
use super::reading::{asked, get, post};
use opc_io_failing::reader::FailingReader;
use std::process::Abort;
use std::test::Fail;

const POLICY: &str =
    "kind,class,name,id,value,owner,flags,digest,when,restricted\ngroup,,DAY,,,,,,,\n";

const ADD_GROUP: &str = "{\"op\":\"AddGroup\",\"name\":\"DAY\"}";

const COMMAND: &str = "{\"text\":\"D U\"}";

// Tests that a request is read, at once and byte by byte.
fn expect(rt: &(impl AllocGlobal + Abort), text: &str, wanted: &str) -> Result<(), Fail> {
    match asked(rt.alloc(), text.as_bytes())? {
        Ok(line) => assert_eq!(rt; line.as_str(), wanted),
        Err(_) => assert!(rt; false),
    }
    let by_bytes = FailingReader::by_bytes(text.as_bytes(), usize::MAX);
    match asked(rt.alloc(), by_bytes)? {
        Ok(line) => assert_eq!(rt; line.as_str(), wanted),
        Err(_) => assert!(rt; false),
    }
    Ok(())
}

#[test]
fn each_route_is_read(rt: HostRuntime) -> Result<(), Fail> {
    for (path, body, wanted) in [
        ("/consoles/C1/command", COMMAND, "command C1 D U"),
        ("/consoles/C1/admin", ADD_GROUP, "admin C1"),
        ("/consoles/C1/import/7", POLICY, "import C1 7 1"),
    ] {
        let text = post(rt.alloc(), path, body)?;
        expect(&rt, text.as_str(), wanted)?;
    }
    for (path, wanted) in [
        ("/consoles/C1/profiles/OPERCMDS", "profiles C1 OPERCMDS"),
        ("/consoles/C1/profiles/CONSOLE", "profiles C1 CONSOLE"),
        ("/consoles/C1/account/0/1000", "account C1 0 1000"),
    ] {
        let text = get(rt.alloc(), path)?;
        expect(&rt, text.as_str(), wanted)?;
    }
    Ok(())
}

#[test]
fn escapes_are_read_in_the_console_alone(rt: HostRuntime) -> Result<(), Fail> {
    for (path, wanted) in [
        ("/consoles/A%231/command", "command A#1 D U"),
        ("/consoles/A#1/command", "command A#1 D U"),
        ("/consoles/%24%40%23%23/command", "command $@## D U"),
    ] {
        let text = post(rt.alloc(), path, COMMAND)?;
        expect(&rt, text.as_str(), wanted)?;
    }
    Ok(())
}

#[test]
fn limits_of_numbers_are_read(rt: HostRuntime) -> Result<(), Fail> {
    for (path, wanted) in [
        ("/consoles/C1/import/999999999", "import C1 999999999 1"),
        ("/consoles/C1/import/000000001", "import C1 1 1"),
    ] {
        let text = post(rt.alloc(), path, POLICY)?;
        expect(&rt, text.as_str(), wanted)?;
    }
    let path = "/consoles/C1/account/999999999999999999/0001";
    let text = get(rt.alloc(), path)?;
    expect(&rt, text.as_str(), "account C1 999999999999999999 1")
}

#[test]
fn other_fields_and_what_follows_the_body_are_ignored(rt: HostRuntime) -> Result<(), Fail> {
    for (text, wanted) in [
        (
            "POST /consoles/C1/command HTTP/1.0\ncontent-length:\t 14 \nExpect: 100-continue\n\n{\"text\":\"D U\"}GET / HTTP/1.1\r\n\r\n",
            "command C1 D U",
        ),
        (
            "\r\n\nGET /consoles/C1/profiles/CONSOLE HTTP/1.1\r\nContent-Length: 2\r\n\r\nno",
            "profiles C1 CONSOLE",
        ),
    ] {
        expect(&rt, text, wanted)?;
    }
    Ok(())
}
