//! Texts and tags.
ghost use Rattle.std.specs.Prelude.{◌≡◌, ◌++◌, OnOk, OnErr};
ghost use Rattle.road_base.specs.Bytes.{Keeps};
ghost use Rattle.object_codec.specs.Spelling.{text_bytes, tags_bytes, TextFits, TagsFit};
ghost use Rattle.object_codec.specs.OneSpelling.{text_one, tags_one};

use crate::lists::{put_list, read_list};
use crate::spelling::{EventFormat, Put};
use road_base::{NoMemory, Tags, Text};
use spelled_bytes::{Spell, Unread};
use std::alloc::Global;

#[tactic(auto, unfolding(crate::specs::Spelling::text_bytes, crate::specs::Spelling::TextFits))]
impl Spell<EventFormat> for Text {
    ghost spelling = { text_bytes };

    ghost fits = { TextFits };

    ghost one = { text_one };

    fn read(alloc: Global, bytes: &[u8]) -> Result<(Text, &[u8]), Unread> {
        let (length, rest) = <u64 as Spell<EventFormat>>::read(alloc, bytes)?;
        if (rest.len() as u64) < length {
            return Err(Unread::Malformed);
        }
        let (front, rest) = rest.split_at(length as usize);
        let Ok(text) = str::from_utf8(front) else {
            return Err(Unread::Malformed);
        };
        Ok((Text::of(alloc, text)?, rest))
    }
}

#[tactic(auto, unfolding(crate::specs::Spelling::text_bytes, crate::specs::Spelling::TextFits))]
impl Put for Text {
    fn put(&self, out: &mut Vec<u8>) -> Result<(), NoMemory> {
        let text = self.as_str();
        (text.len() as u64).put(out)?;
        Ok(out.extend_from_slice(text.as_bytes())?)
    }
}

#[tactic(auto, unfolding(crate::specs::Spelling::tags_bytes, crate::specs::Spelling::TagsFit))]
impl Spell<EventFormat> for Tags {
    ghost spelling = { tags_bytes };

    ghost fits = { TagsFit };

    ghost one = { tags_one };

    fn read(alloc: Global, bytes: &[u8]) -> Result<(Tags, &[u8]), Unread> {
        let (list, rest) = read_list::<(Text, Text)>(alloc, bytes)?;
        if !Tags::are_ascending(&list) {
            return Err(Unread::Malformed);
        }
        Ok((Tags::from_list(list)?, rest))
    }
}

#[tactic(auto, unfolding(crate::specs::Spelling::tags_bytes, crate::specs::Spelling::TagsFit))]
impl Put for Tags {
    fn put(&self, out: &mut Vec<u8>) -> Result<(), NoMemory> {
        put_list(self.items(), out)
    }
}
