//! Hashes and tags.
use crate::crypt::texts::version;
use sg_base::Tag;
use sg_crypt::{Key, cut, cut_matches, tag, tag_matches};
use sg_table::{Args, bytes, yes};
use sha2::{Digest, Sha256};
use std::alloc::Global;

pub fn answer(alloc: Global, call: &str, words: &[Vec<u8>]) -> Option<Vec<u8>> {
    let mut args = Args::new(words);
    let answer = match call {
        "sha256" => bytes(alloc, &Sha256::digest(args.word())),
        "key_bytes" => bytes(alloc, Key::new(args.fixed()).bytes()),
        "tag" | "key_tag" | "cut" => bytes(alloc, &made(call, &mut args).0),
        _ => yes(alloc, is_tag(call, &mut args)),
    };
    args.gives(answer)
}

// The tag of a text by a key, as bytes or ready, or as a version sends it.
fn made(call: &str, args: &mut Args<'_>) -> Tag {
    match call {
        "tag" => tag(args.word(), args.word(), args.word()),
        "key_tag" => Key::new(args.fixed()).tag(args.word(), args.word()),
        _ => cut(version(args), tag(args.word(), args.word(), args.word())),
    }
}

// Whether a tag is that of a text.
fn is_tag(call: &str, args: &mut Args<'_>) -> bool {
    if call == "tag_matches" {
        return tag_matches(args.word(), args.word(), args.word(), &Tag(args.fixed()));
    }
    let version = version(args);
    if call == "key_cut_matches" {
        Key::new(args.fixed()).cut_matches(version, args.word(), args.word(), &Tag(args.fixed()))
    } else {
        cut_matches(
            version,
            args.word(),
            args.word(),
            args.word(),
            &Tag(args.fixed()),
        )
    }
}
