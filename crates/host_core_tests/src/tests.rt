use addin_types::SampleAddIns;
use host_core::{Host, PlainDesk};
use rtd_server::FeedMaker;
use std::test::Fail;
use workbook::{Command, Desk};

#[test]
fn a_host_gives_what_it_keeps(rt: HostRuntime) -> Result<(), Fail> {
    let host = Host::open(rt.alloc(), 7, 3, FeedMaker, SampleAddIns)?;
    let mut desk = PlainDesk::new(host);
    let is_answered = desk.act(Command::Settle).is_ok();
    assert!(rt; is_answered);
    let host = desk.into_host();
    assert_eq!(rt; host.session(), 7);
    assert_eq!(rt; host.limit(), 3);
    assert_eq!(rt; host.book().cells(), 0);
    let history = host.close();
    assert_eq!(rt; history.len(), 1);
    Ok(())
}
