use crate::below::is_below;
use std::test::Fail;

#[test]
fn a_path_is_below_a_folder_by_its_components(rt: HostRuntime) -> Result<(), Fail> {
    let folders = ["/srv/mail", "/a/./b//"];
    for path in [
        "/srv/mail",
        "/srv/mail/",
        "/srv//mail/x",
        "/a/b/c",
        "/a/b/.",
        "/srv/./mail/x/",
    ] {
        assert!(rt; is_below(path, folders.as_slice()), "{path}");
    }
    for path in [
        "",
        "/",
        "/srv",
        "/srv/mailx",
        "srv/mail/x",
        "/srv/mail/../x",
        "/srv/mail/..",
        "/a/bc",
        "/srv/mail/a\0b",
        "./srv/mail",
        "/srv/mail/../mail/x",
    ] {
        assert!(rt; !is_below(path, folders.as_slice()), "{path}");
    }
    assert!(rt; is_below("/etc/passwd", ["/"].as_slice()));
    assert!(rt; !is_below("/etc/passwd", ["etc", "/etc/..", ""].as_slice()));
    Ok(())
}
