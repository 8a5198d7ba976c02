// Service classes as decisions.
ghost use Rattle.service.specs.Classes.{class_code, class_word, class_of_code, class_of_word};
ghost use Rattle.service.specs.Laws.{code_back, code_only, code_small, word_back, word_only, word_of_bytes};
ghost use Rattle.service.specs.Laws;

use crate::classes::ServiceClass;
use policy::kinds::Kind;
use policy::words::Word;

// Class n.d has the code 4n + d and the word `qn.d`.
impl Kind for ServiceClass {
    ghost code_of = { class_code };

    ghost word_of = { class_word };

    ghost of_code = { class_of_code };

    ghost of_word = { class_of_word };

    ghost code_leads_back = { code_back };

    ghost code_alone = { code_only };

    ghost code_fits = { code_small };

    ghost word_leads_back = { word_back };

    ghost word_alone = { word_only };

    ghost proper = { Laws.proper };

    ghost bytes = { word_of_bytes };

    fn code(&self) -> u16 {
        4 * self.queue() as u16 + self.level() as u16
    }

    fn from_code(code: u16) -> Option<ServiceClass> {
        let known = code < 32;
        if known {
            ServiceClass::new((code / 4) as u8, (code % 4) as u8)
        } else {
            None
        }
    }

    fn word(&self) -> Word {
        let text = [b'q', b'0' + self.queue(), b'.', b'0' + self.level()];
        Word::new(&text).unwrap()
    }

    fn from_word(bytes: &[u8]) -> Option<ServiceClass> {
        match bytes {
            [b'q', n @ b'0'..=b'7', b'.', d @ b'0'..=b'3'] => {
                ServiceClass::new(*n - b'0', *d - b'0')
            }
            _ => None,
        }
    }
}
