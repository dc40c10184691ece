//! A fuse at each device call, with each image, and a failure of the disk at each call.
use crate::scripts::answers;
use std::alloc::{AllocError, Global};
use std::test::Fail;

const START: &str =
    "world 2 1024 512 100 2\n1 create\n1 step 1\n1 new a aa\n1 step 1\n1 step 1\n1 step 1\n";

// The digit of a number below 10.
fn digit(number: u8) -> char {
    char::from(b'0' + number % 10)
}

// The script with a number for each `@` and an image for each `#`.
fn filled(alloc: Global, text: &str, calls: u8, image: u8) -> Result<String, AllocError> {
    let mut all = String::from_str(alloc, START)?;
    for each in text.chars() {
        match each {
            '@' => all.push(digit(calls))?,
            '#' => all.push(digit(image))?,
            other => all.push(other)?,
        }
    }
    Ok(all)
}

// What is said after the fuse or the failure is set, for 0 to 9 calls and each image: a line for those that follow one another
// and say the same, with the first and the last of them.
fn table(alloc: Global, text: &str, quiet: usize) -> Result<String, Fail> {
    let mut all = String::new(alloc);
    let mut last = String::new(alloc);
    let mut place = String::new(alloc);
    for number in 0..50 {
        let (calls, image) = (number / 5, number % 5);
        let script = filled(alloc, text, calls, image)?;
        let said = answers(alloc, script.as_str(), quiet)?;
        let mut here = String::new(alloc);
        here.push(digit(calls))?;
        here.push(' ')?;
        here.push(digit(image))?;
        if said.as_str() != last.as_str() {
            all.push_str(place.as_str())?;
            all.push_str(last.as_str())?;
            all.push('\n')?;
            all.push_str(here.as_str())?;
            all.push_str(" to ")?;
            last = said;
        }
        place = here;
    }
    all.push_str(place.as_str())?;
    all.push_str(last.as_str())?;
    Ok(all)
}

// The intent and the done of an upload are four device calls each. The gate is written by the third: an image that has it has the
// note, once all before it is there. A crash before the put leaves nothing or a publication that was never made, one after it a
// publication that was. A fuse that the step does not burn burns as the client comes up.
#[test]
fn upload(rt: HostRuntime) -> Result<(), Fail> {
    let all = table(
        rt.alloc(),
        "1 commit a 1 1=bb\n1 upload a\n1 step 1\n1 step 1\n1 fuse @ #\n1 step 1\n1 crash 0\n1 up\n1 resolve\n1 step 1\n1 list\n",
        11,
    )?;
    assert_eq!(rt;
        all.as_str(),
        "\n\
0 0 to 2 0 | crashed | down | up a:2:1:1 | nothing | no-task | list a:2:1:1\n\
2 1 to 2 1 | crashed | down | up a:2:1:1 pending | task 1 working 1 | voided | list a:2:1:1\n\
2 2 to 2 3 | crashed | down | up a:2:1:1 | nothing | no-task | list a:2:1:1\n\
2 4 to 2 4 | crashed | down | up a:2:1:1 pending | task 1 working 1 | voided | list a:2:1:1\n\
3 0 to 3 0 | crashed | down | up a:2:1:1 | nothing | no-task | list a:2:1:1\n\
3 1 to 3 1 | crashed | down | up a:2:1:1 pending | task 1 working 1 | voided | list a:2:1:1\n\
3 2 to 3 3 | crashed | down | up a:2:1:1 | nothing | no-task | list a:2:1:1\n\
3 4 to 3 4 | crashed | down | up a:2:1:1 pending | task 1 working 1 | voided | list a:2:1:1\n\
4 0 to 6 0 | +3 crashed | down | up a:2:1:1 pending | task 1 working 1 | resolved 3 | list a:3:1:0\n\
6 1 to 6 1 | +3 crashed | down | up | nothing | no-task | list\n\
6 2 to 7 0 | +3 crashed | down | up a:2:1:1 pending | task 1 working 1 | resolved 3 | list a:3:1:0\n\
7 1 to 7 1 | +3 crashed | down | up | nothing | no-task | list\n\
7 2 to 7 4 | +3 crashed | down | up a:2:1:1 pending | task 1 working 1 | resolved 3 | list a:3:1:0\n\
8 0 to 9 4 | +3 done 3 | crashed | crashed | down | down | down"
    );
    Ok(())
}

// A failure of the disk at each call of the same step: the call has no effect, and the journal is closed. A crash then leaves what
// was not synced by its image.
#[test]
fn failing(rt: HostRuntime) -> Result<(), Fail> {
    let all = table(
        rt.alloc(),
        "1 commit a 1 1=bb\n1 upload a\n1 step 1\n1 step 1\n1 fail @\n1 step 1\n1 list\n1 crash #\n1 up\n1 resolve\n1 step 1\n1 list\n",
        11,
    )?;
    assert_eq!(rt;
        all.as_str(),
        "\n\
0 0 to 3 0 | disk-fault | list a:2:1:1 | crashed | up a:2:1:1 | nothing | no-task | list a:2:1:1\n\
3 1 to 3 1 | disk-fault | list a:2:1:1 | crashed | up a:2:1:1 pending | task 1 working 1 | voided | list a:2:1:1\n\
3 2 to 3 3 | disk-fault | list a:2:1:1 | crashed | up a:2:1:1 | nothing | no-task | list a:2:1:1\n\
3 4 to 3 4 | disk-fault | list a:2:1:1 | crashed | up a:2:1:1 pending | task 1 working 1 | voided | list a:2:1:1\n\
4 0 to 7 0 | +3 disk-fault | list a:2:1:1 pending | crashed | up a:2:1:1 pending | task 1 working 1 | resolved 3 | list a:3:1:0\n\
7 1 to 7 1 | +3 disk-fault | list a:2:1:1 pending | crashed | up | nothing | no-task | list\n\
7 2 to 7 4 | +3 disk-fault | list a:2:1:1 pending | crashed | up a:2:1:1 pending | task 1 working 1 | resolved 3 | list a:3:1:0\n\
8 0 to 9 4 | +3 done 3 | list a:3:1:0 | crashed | disk-fault | down | down | down"
    );
    Ok(())
}

// A fuse in the note that ends a publication whose answer was lost.
#[test]
fn resolving(rt: HostRuntime) -> Result<(), Fail> {
    let all = table(
        rt.alloc(),
        "1 commit a 1 1=bb\n1 upload a\n1 step 1\n1 step 1\n1 step 1 lost\n1 resolve\n1 fuse @ #\n1 step 1\n1 crash 0\n1 up\n1 resolve\n1 step 1\n1 list\n",
        13,
    )?;
    assert_eq!(rt;
        all.as_str(),
        "\n\
0 0 to 2 0 | crashed | down | up a:2:1:1 pending | task 1 working 1 | resolved 3 | list a:3:1:0\n\
2 1 to 2 1 | crashed | down | up | nothing | no-task | list\n\
2 2 to 3 0 | crashed | down | up a:2:1:1 pending | task 1 working 1 | resolved 3 | list a:3:1:0\n\
3 1 to 3 1 | crashed | down | up | nothing | no-task | list\n\
3 2 to 3 4 | crashed | down | up a:2:1:1 pending | task 1 working 1 | resolved 3 | list a:3:1:0\n\
4 0 to 6 4 | resolved 3 | crashed | crashed | down | down | down\n\
7 0 to 9 4 | resolved 3 | crashed | up | nothing | no-task | list"
    );
    Ok(())
}

// The note of a commit is four device calls: it is there once an image has its gate, which the third writes at an odd place, so that
// the image of mixed bytes has it too. A fuse that the commit does not burn burns as the client comes up.
#[test]
fn committing(rt: HostRuntime) -> Result<(), Fail> {
    let all = table(
        rt.alloc(),
        "1 fuse @ #\n1 commit a 1 1=bb\n1 crash 0\n1 up\n1 list\n",
        7,
    )?;
    assert_eq!(rt;
        all.as_str(),
        "\n\
0 0 to 2 0 | crashed | down | up | list\n\
2 1 to 2 1 | crashed | down | up a:2:1:1 | list a:2:1:1\n\
2 2 to 2 3 | crashed | down | up | list\n\
2 4 to 2 4 | crashed | down | up a:2:1:1 | list a:2:1:1\n\
3 0 to 3 0 | crashed | down | up | list\n\
3 1 to 3 1 | crashed | down | up a:2:1:1 | list a:2:1:1\n\
3 2 to 3 3 | crashed | down | up | list\n\
3 4 to 3 4 | crashed | down | up a:2:1:1 | list a:2:1:1\n\
4 0 to 6 4 | ok | crashed | crashed | down\n\
7 0 to 9 4 | ok | crashed | up a:2:1:1 | list a:2:1:1"
    );
    Ok(())
}

// A fuse in the note that gives a publication up whose put was refused before: without the note it stays pending.
#[test]
fn voiding(rt: HostRuntime) -> Result<(), Fail> {
    let all = table(
        rt.alloc(),
        "1 commit a 1 1=bb\n1 upload a\n1 step 1\n1 step 1\n2 new b bb\n2 step 1\n2 step 1\n2 step 1\n1 step 1\n1 fuse @ #\n1 step 1 fail\n1 crash 0\n1 up\n1 resolve\n1 step 1\n1 list\n",
        16,
    )?;
    assert_eq!(rt;
        all.as_str(),
        "\n\
0 0 to 2 0 | crashed | down | up a:2:1:1 pending | task 1 working 1 | voided | list a:2:1:1\n\
2 1 to 2 1 | crashed | down | up a:2:1:1 | nothing | no-task | list a:2:1:1\n\
2 2 to 3 0 | crashed | down | up a:2:1:1 pending | task 1 working 1 | voided | list a:2:1:1\n\
3 1 to 3 1 | crashed | down | up a:2:1:1 | nothing | no-task | list a:2:1:1\n\
3 2 to 3 4 | crashed | down | up a:2:1:1 pending | task 1 working 1 | voided | list a:2:1:1\n\
4 0 to 6 4 | store-fault | crashed | crashed | down | down | down\n\
7 0 to 9 4 | store-fault | crashed | up a:2:1:1 | nothing | no-task | list a:2:1:1"
    );
    Ok(())
}

// A client comes up by three device calls. Where a fuse burns in one of them it stays down, and comes up the next time.
#[test]
fn coming_up(rt: HostRuntime) -> Result<(), Fail> {
    let all = table(
        rt.alloc(),
        "1 commit a 1 1=bb\n1 fuse @ #\n1 crash 0\n1 up\n1 up\n1 list\n",
        8,
    )?;
    assert_eq!(rt;
        all.as_str(),
        "\n\
0 0 to 2 4 | crashed | crashed | up a:2:1:1 | list a:2:1:1\n\
3 0 to 9 4 | crashed | up a:2:1:1 | is-up | list a:2:1:1"
    );
    Ok(())
}
