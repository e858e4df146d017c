// An answer of five bytes, cut at each allocation length.
use sg_wire::Cut;

const ANSWERS: [(usize, [u8; 7]); 8] = [
    (0, [9, 9, 9, 9, 9, 9, 9]),
    (1, [1, 9, 9, 9, 9, 9, 9]),
    (2, [1, 2, 9, 9, 9, 9, 9]),
    (3, [1, 2, 3, 9, 9, 9, 9]),
    (4, [1, 2, 3, 4, 9, 9, 9]),
    (5, [1, 2, 3, 4, 5, 9, 9]),
    (6, [1, 2, 3, 4, 5, 9, 9]),
    (7, [1, 2, 3, 4, 5, 9, 9]),
];

#[test]
fn an_answer_is_cut(rt: HostRuntime) {
    for (limit, answer) in &ANSWERS {
        let mut buf = [9; 7];
        let limit = buf.len().min(*limit);
        let mut cut = Cut::new(&mut buf, limit);
        cut.put(&[1, 2, 3]);
        cut.put(&[]);
        cut.put(&[4, 5]);
        let is_cut = cut.written() == limit.min(5);
        assert!(rt; is_cut && buf == *answer, "at {limit}");
    }
}

/// A replacement keeps the length that was written, and its bytes after that length are dropped.
#[test]
fn written_bytes_are_replaced(rt: HostRuntime) {
    let mut buf = [9; 7];
    let mut cut = Cut::new(&mut buf, 6);
    cut.put(&[0, 0, 0, 0, 0]);
    assert!(rt; cut.written() == 5);
    cut.replace(2, &[0xAA, 0xBB, 0xCC, 0xDD]);
    assert!(rt; cut.written() == 5);
    cut.put(&[0x11, 0x22]);
    assert!(rt; cut.written() == 6);
    cut.replace(6, &[0xEE]);
    assert!(rt; cut.written() == 6);
    assert!(rt; buf == [0, 0, 0xAA, 0xBB, 0xCC, 0x11, 9]);
}
