//! Made scripts of requests.

use serde_json::Value;
use std::test::Fail;
use table_maker::script;

const OF_THREE: &[u8] =
    b"{\"id\":\"maker\",\"op\":\"create\",\"partition\":[],\"schema\":\"{\\\"type\\\":\\\"struct\\\",\\\"fields\\\":[]}\"}
{\"adds\":[{\"dataChange\":true,\"modificationTime\":1,\"partitionValues\":{},\"path\":\"f1\",\"size\":16838}],\"app\":\"maker\",\"number\":1,\"op\":\"write\"}
{\"adds\":[{\"dataChange\":true,\"modificationTime\":1,\"partitionValues\":{},\"path\":\"f1\",\"size\":16838}],\"app\":\"maker\",\"number\":1,\"op\":\"write\"}
{\"adds\":[{\"dataChange\":true,\"modificationTime\":3,\"partitionValues\":{},\"path\":\"f3\",\"size\":10113}],\"app\":\"maker\",\"number\":2,\"op\":\"write\"}
{\"op\":\"load\"}
";

#[test]
fn made_script_of_three(rt: HostRuntime) -> Result<(), Fail> {
    assert!(rt; script(rt.alloc(), 1, 3)?.as_slice() == OF_THREE);
    Ok(())
}

#[test]
fn fourth_and_fifth_draw(rt: HostRuntime) -> Result<(), Fail> {
    let text = String::from_utf8(script(rt.alloc(), 1, 5)?)?;
    assert!(rt; text.as_str().contains("\"path\":\"f4\",\"size\":17515}"));
    assert!(rt; text.as_str().contains("\"path\":\"f5\",\"size\":31051}"));
    Ok(())
}

#[test]
fn made_script_of_a_thousand(rt: HostRuntime) -> Result<(), Fail> {
    let text = String::from_utf8(script(rt.alloc(), 1, 1000)?)?;
    let mut lines = 0usize;
    for line in text.as_str().lines() {
        let value = Value::from_str(rt.alloc(), line)?;
        assert!(rt; value.as_object().is_some(), "{line}");
        lines = lines.saturating_add(1);
    }
    assert_eq!(rt; lines, 1002);

    // The length and the first removes are those of a script of the same rules in another language.
    assert_eq!(rt; text.len(), 117105);
    assert!(rt;
        text.as_str().contains(
            "\"number\":9,\"op\":\"write\",\"removes\":[{\"dataChange\":true,\"path\":\"f1\"}]"
        )
    );
    assert!(rt;
        text.as_str().contains(
            "\"number\":25,\"op\":\"write\",\"removes\":[{\"dataChange\":true,\"path\":\"f3\"}]"
        )
    );
    Ok(())
}
