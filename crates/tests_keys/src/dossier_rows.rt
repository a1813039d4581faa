use evidence::{Dossier, DossierFault};
use octets::Octets;
use std::alloc::Global;
use std::test::Fail;

// The text of a dossier of a key of 56 bytes `k`, of `left body` and of no right one.
const TEXT: &[u8; 165] =
    b"gittuf-evidence 1\nkey 6b6b6b6b6b6b6b6b6b6b6b6b6b6b6b6b6b6b6b6b6b6b6b6b6b6b6b6b6b6b6b6b6b6b6b6b6b6b6b6b\
6b6b6b6b6b6b6b6b6b6b6b6b6b6b6b6b\nleft 9\nleft body\nright 0\n\nend\n";

// Where its parts begin: the first line, the key, the left body, the right one, the last line, and the end.
const PARTS: [usize; 6] = [0, 18, 135, 152, 161, 165];

fn at_of(alloc: Global, text: &[u8]) -> Result<Option<u64>, Fail> {
    match Dossier::read(alloc, text) {
        Ok(_) => Ok(None),
        Err(DossierFault::Malformed { at }) => Ok(Some(at)),
        Err(DossierFault::Memory) => Err(Fail::from("memory")),
    }
}

// Where the part begins that has this place.
fn part_of(place: usize) -> u64 {
    let mut found = 0;
    for part in PARTS {
        if part <= place {
            found = part as u64;
        }
    }
    found
}

#[test]
fn a_dossier_is_read_and_written(rt: HostRuntime) -> Result<(), Fail> {
    let alloc = rt.alloc();
    let Ok(dossier) = Dossier::read(alloc, TEXT) else {
        return Err(Fail::from("a dossier"));
    };
    assert!(rt; dossier.public.as_slice() == [b'k'; 56].as_slice());
    assert!(rt; dossier.left.as_slice() == b"left body".as_slice());
    assert!(rt; dossier.right.is_empty());
    let text = dossier.write(alloc)?;
    assert!(rt; text.as_slice() == TEXT.as_slice());
    Ok(())
}

#[test]
fn a_cut_text_is_wrong_where_its_part_begins(rt: HostRuntime) -> Result<(), Fail> {
    let alloc = rt.alloc();
    for len in 0..165usize {
        let cut = TEXT.get(..len).unwrap_or(&[]);
        assert_eq!(rt; at_of(alloc, cut)?, Some(part_of(len)));
    }
    assert_eq!(rt; at_of(alloc, TEXT.get(..165).unwrap_or(&[]))?, None);
    Ok(())
}

#[test]
fn a_changed_byte_is_wrong_where_its_part_begins(rt: HostRuntime) -> Result<(), Fail> {
    let alloc = rt.alloc();
    for place in 0..165usize {
        let mut text = *TEXT;
        if let Some(byte) = text.get_mut(place) {
            *byte = b'!';
        }
        let found = at_of(alloc, text.get(..165).unwrap_or(&[]))?;
        // Only a body may have any byte.
        let in_body = place >= 142 && place < 151;
        assert_eq!(rt; found, (!in_body).then_some(part_of(place)));
    }
    Ok(())
}

#[test]
fn other_texts_are_wrong_at_their_line(rt: HostRuntime) -> Result<(), Fail> {
    let alloc = rt.alloc();
    assert_eq!(rt; at_of(alloc, b"")?, Some(0));
    // Something behind the last line.
    let mut more = Octets::from_slice(alloc, TEXT)?;
    more.push(b'\n')?;
    assert_eq!(rt; at_of(alloc, more.as_slice())?, Some(165));
    let head = b"gittuf-evidence 1\n";
    let rows: [(&[u8], u64); 4] = [
        (b"key 6B\n", 18),
        (b"key \n", 18),
        (b"keys\n", 18),
        (b"left 0\n\n", 18),
    ];
    for (line, at) in rows {
        let mut text = Octets::from_slice(alloc, head)?;
        text.append(line)?;
        assert_eq!(rt; at_of(alloc, text.as_slice())?, Some(at));
    }
    let front = TEXT.get(..135).unwrap_or(&[]);
    let sides: [(&[u8], u64); 7] = [
        (b"left 09\nleft body\nright 0\n\nend\n", 135),
        (b"left \n\nright 0\n\nend\n", 135),
        (b"left -1\n\nright 0\n\nend\n", 135),
        (b"left 16777217\n\nright 0\n\nend\n", 135),
        (b"left 10\nleft body\nright 0\n\nend\n", 135),
        (b"right 0\n\nleft 0\n\nend\n", 135),
        (b"left 0\n\nleft 0\n\nend\n", 143),
    ];
    for (side, at) in sides {
        let mut text = Octets::from_slice(alloc, front)?;
        text.append(side)?;
        assert_eq!(rt; at_of(alloc, text.as_slice())?, Some(at));
    }
    Ok(())
}

// The text with this line and body in the left one's place.
fn text_of(alloc: Global, line: &[u8], body: &[u8]) -> Result<Octets, Fail> {
    let mut text = Octets::from_slice(alloc, TEXT.get(..135).unwrap_or(&[]))?;
    text.append(line)?;
    text.append(body)?;
    text.append(b"\nright 0\n\nend\n")?;
    Ok(text)
}

#[test]
fn a_body_has_at_most_the_limit(rt: HostRuntime) -> Result<(), Fail> {
    let alloc = rt.alloc();
    let mut body = vec![in alloc; 0u8; 16777216]?;
    let text = text_of(alloc, b"left 16777216\n", body.as_slice())?;
    assert_eq!(rt; at_of(alloc, text.as_slice())?, None);
    body.push(0)?;
    let past = text_of(alloc, b"left 16777217\n", body.as_slice())?;
    assert_eq!(rt; at_of(alloc, past.as_slice())?, Some(135));
    Ok(())
}
