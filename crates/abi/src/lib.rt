// What the exported functions answer: plain numbers for each answer of a service.
#![tactic(auto)]

ghost use Rattle.std.specs.Prelude.{◌≡◌};
ghost use Rattle.refusal.specs.Answers.{refuse, map_answer, answer_of};
ghost use Rattle.abi.specs.Exported.{exported, exported_head};
ghost use Rattle.abi.specs.Steps.{program_numbers, circuit_numbers, file_bytes, FewGates};

use circuit::layout::file_length;
use circuit::reader::CircuitHead;
use program::reader::Head;
use refusal::causes::Refusal;

// Number 0 and the value of a result, or the number and the place of a refusal.
#[repr(C)]
#[derive(Clone, Copy)]
pub struct OracleAnswer {
    pub number: u64,
    pub value: u64,
}

// What a reader answers: the same, and the file's numbers of inputs, outputs and work lines. All
// three are 0 for a refusal, and a program has no work lines.
#[repr(C)]
#[derive(Clone, Copy)]
pub struct OracleHead {
    pub number: u64,
    pub value: u64,
    pub inputs: u64,
    pub outputs: u64,
    pub work: u64,
}

impl From<Refusal> for OracleAnswer {
    ghost from_gives = { λ why answer. answer ≡ exported (refuse why) };

    fn from(why: Refusal) -> OracleAnswer {
        OracleAnswer {
            number: why.number(),
            value: why.place(),
        }
    }
}

// What a service answers whose result is a number.
impl From<Result<u64, Refusal>> for OracleAnswer {
    ghost from_gives = { λ told answer. answer ≡ exported (answer_of told) };

    fn from(told: Result<u64, Refusal>) -> OracleAnswer {
        match told {
            Ok(value) => OracleAnswer { number: 0, value },
            Err(why) => OracleAnswer::from(why),
        }
    }
}

// A reader's refusal, with no number of the file.
impl From<Refusal> for OracleHead {
    ghost from_gives = { λ why head. head ≡ exported_head (refuse why) };

    fn from(why: Refusal) -> OracleHead {
        let answer = OracleAnswer::from(why);
        OracleHead {
            number: answer.number,
            value: answer.value,
            inputs: 0,
            outputs: 0,
            work: 0,
        }
    }
}

// What reading a program file answers; the value of a result is the number of nodes.
impl From<Result<Head, Refusal>> for OracleHead {
    ghost from_gives = { λ read head. head ≡ exported_head (map_answer program_numbers (answer_of read)) };

    fn from(read: Result<Head, Refusal>) -> OracleHead {
        match read {
            Ok(program) => OracleHead {
                number: 0,
                value: program.nodes as u64,
                inputs: program.inputs as u64,
                outputs: program.outputs as u64,
                work: 0,
            },
            Err(why) => OracleHead::from(why),
        }
    }
}

// What reading a circuit file answers; the value of a result is the number of gates.
impl From<Result<CircuitHead, Refusal>> for OracleHead {
    ghost from_gives = { λ read head. head ≡ exported_head (map_answer circuit_numbers (answer_of read)) };

    fn from(read: Result<CircuitHead, Refusal>) -> OracleHead {
        match read {
            Ok(circuit) => OracleHead {
                number: 0,
                value: circuit.gates as u64,
                inputs: circuit.inputs as u64,
                outputs: circuit.outputs as u64,
                work: circuit.work as u64,
            },
            Err(why) => OracleHead::from(why),
        }
    }
}

// What a service answers that writes a circuit file; the value of a result is the number of bytes
// written.
pub fn file_answer(written: Result<CircuitHead, Refusal>) -> OracleAnswer
    requires { FewGates (answer_of written) }
    ensures { result ≡ exported (map_answer file_bytes (answer_of written)) }
{
    match written {
        Ok(head) => OracleAnswer::from(Ok(file_length(head.gates) as u64)),
        Err(why) => OracleAnswer::from(why),
    }
}
