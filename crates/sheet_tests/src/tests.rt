// Inputs, and the line that each is answered by.
use answers::{group, refusal};
use lines::reader::Reader;
use sheets::reading::sheet;
use std::test::Fail;

const ACCEPTED: [(&[u8], &[u8]); 9] = [
    (
        b"rank=2\nrow1=1 3\nrow2=3 1\nkind=whole\n",
        b"group=2 finite=yes\n",
    ),
    (
        b"rank=2\nrow1=1 5\nrow2=5 1\nkind=golden\n",
        b"group=2 finite=yes\n",
    ),
    (b"rank=1\nrow1=1\nkind=line\n", b"group=1 finite=yes\n"),
    (b"rank=1\nrow1=1\nkind=whole\n", b"group=1 finite=yes\n"),
    (
        b"rank=2\nrow1=1 inf\nrow2=inf 1\nkind=golden\n",
        b"group=2 finite=no\n",
    ),
    (
        b"rank=3\nrow1=1 inf inf\nrow2=inf 1 inf\nrow3=inf inf 1\nkind=whole\n",
        b"group=3 finite=no\n",
    ),
    (
        b"rank=8\nrow1=1 3 2 2 2 2 2 2\nrow2=3 1 3 2 2 2 2 2\nrow3=2 3 1 3 2 2 2 2\nrow4=2 2 3 1 3 2 2 2\nrow5=2 2 2 3 1 3 2 2\nrow6=2 2 2 2 3 1 3 2\nrow7=2 2 2 2 2 3 1 3\nrow8=2 2 2 2 2 2 3 1\nkind=line\n",
        b"group=8 finite=yes\n",
    ),
    (
        b"rank=8\nrow1=1 2 3 2 2 2 2 2\nrow2=2 1 2 3 2 2 2 2\nrow3=3 2 1 3 2 2 2 2\nrow4=2 3 3 1 3 2 2 2\nrow5=2 2 2 3 1 3 2 2\nrow6=2 2 2 2 3 1 3 2\nrow7=2 2 2 2 2 3 1 3\nrow8=2 2 2 2 2 2 3 1\nkind=golden\n",
        b"group=8 finite=yes\n",
    ),
    (
        b"rank=3\nrow1=1 5 2\nrow2=5 1 3\nrow3=2 3 1\nkind=golden\n",
        b"group=3 finite=yes\n",
    ),
];

const REFUSED: [(&[u8], &[u8]); 51] = [
    (b"", b"refused=1 line=1 at=0 layer=line\n"),
    (b"\n", b"refused=2 line=1 at=0 layer=line\n"),
    (b"rank=3", b"refused=1 line=1 at=6 layer=line\n"),
    (b"rank=3\n", b"refused=1 line=2 at=0 layer=line\n"),
    (b"rank=0\n", b"refused=3 line=1 at=5 layer=sheet\n"),
    (b"rank=9\n", b"refused=3 line=1 at=5 layer=sheet\n"),
    (b"rank=33\n", b"refused=3 line=1 at=5 layer=sheet\n"),
    (b"rank=\n", b"refused=3 line=1 at=5 layer=sheet\n"),
    (b"rank\n", b"refused=2 line=1 at=0 layer=line\n"),
    (b"Rank=3\n", b"refused=2 line=1 at=0 layer=line\n"),
    (b"row1=1\n", b"refused=2 line=1 at=0 layer=line\n"),
    (b"rank=2\nrow2=1 3\n", b"refused=2 line=2 at=0 layer=line\n"),
    (
        b"rank=2\nrow1=1 3\nkind=whole\n",
        b"refused=2 line=3 at=0 layer=line\n",
    ),
    (b"rank=2\nrow1=1 3", b"refused=1 line=2 at=8 layer=line\n"),
    (
        b"rank=2\nrow1=\nrow2=3 1\nkind=whole\nform=12\n",
        b"refused=4 line=2 at=5 layer=sheet\n",
    ),
    (
        b"rank=2\nrow1=1\nrow2=3 1\nkind=whole\nform=12\n",
        b"refused=4 line=2 at=6 layer=sheet\n",
    ),
    (
        b"rank=2\nrow1=1 \nrow2=3 1\nkind=whole\nform=12\n",
        b"refused=4 line=2 at=7 layer=sheet\n",
    ),
    (
        b"rank=2\nrow1=1  3\nrow2=3 1\nkind=whole\nform=12\n",
        b"refused=4 line=2 at=7 layer=sheet\n",
    ),
    (
        b"rank=2\nrow1=1 3 \nrow2=3 1\nkind=whole\nform=12\n",
        b"refused=4 line=2 at=8 layer=sheet\n",
    ),
    (
        b"rank=2\nrow1=1 3 3\nrow2=3 1\nkind=whole\nform=12\n",
        b"refused=4 line=2 at=8 layer=sheet\n",
    ),
    (
        b"rank=2\nrow1=1,3\nrow2=3 1\nkind=whole\nform=12\n",
        b"refused=4 line=2 at=6 layer=sheet\n",
    ),
    (
        b"rank=2\nrow1=1 7\nrow2=3 1\nkind=whole\nform=12\n",
        b"refused=4 line=2 at=7 layer=sheet\n",
    ),
    (
        b"rank=2\nrow1=1 0\nrow2=3 1\nkind=whole\nform=12\n",
        b"refused=4 line=2 at=7 layer=sheet\n",
    ),
    (
        b"rank=2\nrow1=1 i\nrow2=3 1\nkind=whole\nform=12\n",
        b"refused=4 line=2 at=8 layer=sheet\n",
    ),
    (
        b"rank=2\nrow1=1 in\nrow2=3 1\nkind=whole\nform=12\n",
        b"refused=4 line=2 at=9 layer=sheet\n",
    ),
    (
        b"rank=2\nrow1=1 inx\nrow2=3 1\nkind=whole\nform=12\n",
        b"refused=4 line=2 at=9 layer=sheet\n",
    ),
    (
        b"rank=2\nrow1=1 inf \nrow2=3 1\nkind=whole\nform=12\n",
        b"refused=4 line=2 at=10 layer=sheet\n",
    ),
    (
        b"rank=2\nrow1=1 info\nrow2=3 1\nkind=whole\nform=12\n",
        b"refused=4 line=2 at=10 layer=sheet\n",
    ),
    (
        b"rank=2\nrow1=inf 3\nrow2=3 1\nkind=whole\nform=12\n",
        b"refused=5 line=2 at=5 layer=sheet\n",
    ),
    (
        b"rank=2\nrow1=3 1\nrow2=3 1\nkind=whole\nform=12\n",
        b"refused=5 line=2 at=5 layer=sheet\n",
    ),
    (
        b"rank=2\nrow1=1 1\nrow2=3 1\nkind=whole\nform=12\n",
        b"refused=5 line=2 at=7 layer=sheet\n",
    ),
    (
        b"rank=2\nrow1=2 1\nrow2=3 1\nkind=whole\nform=12\n",
        b"refused=5 line=2 at=5 layer=sheet\n",
    ),
    (
        b"rank=2\nrow1= 1 3\nrow2=3 1\nkind=whole\nform=12\n",
        b"refused=4 line=2 at=5 layer=sheet\n",
    ),
    (
        b"rank=2\nrow1=x\nrow2=3 1\nkind=whole\nform=12\n",
        b"refused=4 line=2 at=5 layer=sheet\n",
    ),
    (
        b"rank=2\nrow1=1 3\nrow2=4 1\nkind=whole\nform=12\n",
        b"refused=5 line=3 at=5 layer=sheet\n",
    ),
    (
        b"rank=2\nrow1=1 3\nrow2=inf 1\nkind=whole\nform=12\n",
        b"refused=5 line=3 at=5 layer=sheet\n",
    ),
    (
        b"rank=2\nrow1=1 3\nrow2=3 3\nkind=whole\nform=12\n",
        b"refused=5 line=3 at=7 layer=sheet\n",
    ),
    (
        b"rank=2\nrow1=1 3\nrow2=3 2\nkind=whole\nform=12\n",
        b"refused=5 line=3 at=7 layer=sheet\n",
    ),
    (
        b"rank=2\nrow1=1 3\nrow2=1 1\nkind=whole\nform=12\n",
        b"refused=5 line=3 at=5 layer=sheet\n",
    ),
    (
        b"rank=2\nrow1=1 3\nrow2=3\nkind=whole\nform=12\n",
        b"refused=4 line=3 at=6 layer=sheet\n",
    ),
    (
        b"rank=2\nrow1=1 3\nrow2=3 1 1\nkind=whole\nform=12\n",
        b"refused=4 line=3 at=8 layer=sheet\n",
    ),
    (
        b"rank=2\nrow1=1 3\nrow2=3 1x\nkind=whole\nform=12\n",
        b"refused=4 line=3 at=8 layer=sheet\n",
    ),
    (
        b"rank=2\nrow1=1 5\nrow2=5 1\nkind=\nform=21212\n",
        b"refused=6 line=4 at=5 layer=sheet\n",
    ),
    (
        b"rank=2\nrow1=1 5\nrow2=5 1\nkind=Whole\nform=21212\n",
        b"refused=6 line=4 at=5 layer=sheet\n",
    ),
    (
        b"rank=2\nrow1=1 5\nrow2=5 1\nkind=whole \nform=21212\n",
        b"refused=6 line=4 at=5 layer=sheet\n",
    ),
    (
        b"rank=2\nrow1=1 5\nrow2=5 1\nkind=wholes\nform=21212\n",
        b"refused=6 line=4 at=5 layer=sheet\n",
    ),
    (
        b"rank=2\nrow1=1 5\nrow2=5 1\nkind=line\nform=21212\n",
        b"refused=6 line=4 at=5 layer=sheet\n",
    ),
    (
        b"rank=2\nrow1=1 5\nrow2=5 1\nkind=ico\nform=21212\n",
        b"refused=6 line=4 at=5 layer=sheet\n",
    ),
    (
        b"rank=2\nrow1=1 5\nrow2=5 1\nkind=whole\nform=21212\n",
        b"refused=6 line=4 at=5 layer=sheet\n",
    ),
    (
        b"rank=3\nrow1=1 3 2\nrow2=3 1 4\nrow3=2 4 1\nkind=line\n",
        b"refused=6 line=5 at=5 layer=sheet\n",
    ),
    (
        b"rank=3\nrow1=1 2 3\nrow2=2 1 3\nrow3=3 3 1\nkind=line\n",
        b"refused=6 line=5 at=5 layer=sheet\n",
    ),
];

#[test]
fn sheets_are_accepted(rt: HostRuntime) -> Result<(), Fail> {
    for (input, line) in ACCEPTED {
        let mut reader = Reader::new(input);
        match sheet(&mut reader) {
            Ok(accepted) => assert_eq!(rt; group(rt.alloc(), &accepted.group())?.as_bytes(), line),
            Err(_) => return Err(Fail::new("refused")),
        }
    }
    Ok(())
}

#[test]
fn sheets_are_refused(rt: HostRuntime) -> Result<(), Fail> {
    for (input, line) in REFUSED {
        let mut reader = Reader::new(input);
        match sheet(&mut reader) {
            Ok(_) => return Err(Fail::new("accepted")),
            Err(refused) => assert_eq!(rt; refusal(rt.alloc(), &refused)?.as_bytes(), line),
        }
    }
    Ok(())
}
